// The calls of a stack that change it. The slots stay those that were lent.
ghost use Rattle.std.specs.Prelude.{◌≡◌, false, take};
ghost use Rattle.tables.specs.Stacks.{Pushed, Popped};
ghost use Rattle.tables.specs.Items.{items, slots_of, loan_of};

use crate::stack::Stack;

impl<'a, T: Copy> Stack<'a, T> {
    // Puts an element on top; false, and nothing done, where there is no room. No `Result`: no refusal has this cause.
    pub fn push(&mut self, x: T) -> bool
        ensures pushed { Pushed (items self.old) (slots_of self.old) x (items self.new) result }
        ensures kept { result ≡ false → self.new ≡ self.old }
        ensures slots { slots_of self.new ≡ slots_of self.old }
        ensures loan { loan_of self.new ≡ loan_of self.old }
    {
        if self.is_full() {
            return false;
        }
        self.slots[self.len] = x;
        self.len += 1;
        true
    }

    // Takes the top element.
    pub fn pop(&mut self) -> Option<T>
        ensures popped { Popped (items self.old) (items self.new) result }
        ensures slots { slots_of self.new ≡ slots_of self.old }
        ensures loan { loan_of self.new ≡ loan_of self.old }
    {
        let at = self.len.checked_sub(1)?;
        self.len = at;
        Some(self.slots[at])
    }

    // Takes every element at or above a height off.
    pub fn cut(&mut self, height: usize)
        ensures items { items self.new ≡ take height (items self.old) }
        ensures slots { slots_of self.new ≡ slots_of self.old }
        ensures loan { loan_of self.new ≡ loan_of self.old }
    {
        self.len = self.len.min(height);
    }
}
