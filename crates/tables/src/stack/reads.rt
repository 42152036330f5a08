// The calls of a stack that change nothing, and how one is made.
ghost use Rattle.std.specs.Prelude.{◌≡◌, [], length, Decides};
ghost use Rattle.tables.specs.Stacks.{Placed};
ghost use Rattle.tables.specs.Items.{items, slots_of, loan_of};

use crate::stack::Stack;

impl<'a, T: Copy> Stack<'a, T> {
    // An empty stack over the slots, whatever they hold.
    pub fn new(slots: &'a mut [T]) -> Stack<'a, T>
        ensures items { items result ≡ [] }
        ensures slots { slots_of result ≡ length slots.old }
        ensures loan { loan_of result ≡ slots.entry.ghost_name }
        ensures kept { result.slots.now ≡ slots.old }
    {
        Stack { slots, len: 0 }
    }

    // How many elements it has.
    pub fn height(&self) -> usize
        ensures { result ≡ length (items self.now) }
    {
        self.len
    }

    // How many elements there is room for.
    pub fn capacity(&self) -> usize
        ensures { result ≡ slots_of self.now }
    {
        self.slots.len()
    }

    // Whether there is no room for one more.
    pub fn is_full(&self) -> bool
        ensures { Decides result (length (items self.now) ≡ slots_of self.now) }
    {
        self.height() == self.capacity()
    }

    // The element at a height, the lowest at 0.
    pub fn at(&self, i: usize) -> Option<T>
        ensures { Placed (items self.now) i result }
    {
        self.slots[..self.len].get(i).copied()
    }
}
