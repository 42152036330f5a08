// A stack over slots that are lent to it.
ghost use Rattle.std.specs.Prelude.{◌≤◌, length};

pub mod reads;
pub mod writes;

// A choice on a branch: the trail's height before it, and the atom and the sign chosen.
#[derive(Clone, Copy)]
pub struct Choice {
    pub height: u16,
    pub atom: u16,
    pub sign: bool,
}

// The slots are lent: how many there are is the lender's to say, not the type's, so no `ArrayVec`.
#[derive(Drop)]
pub struct Stack<'a, T> {
    slots: &'a mut [T],
    len: usize,
    ghost ok: { len ≤ length slots.now },
}
