// What the search speaks of. No clause stands in this file, so that specs/ can name the types.
use classes::table::ClassTable;
use syntax::types::SignedAtom;
use tables::stack::{Choice, Stack};

// The search at a moment: the book, the branch as it stands in the table and on the trail, the choices on it, and its
// class table. Each reference has a lifetime of its own: only so does the check cover a call of a method of it.
// What holds of a search is no invariant of the type: after a tell the classes are old until they are read anew, and a
// branch may be lost. So each method says what it needs (`Ready`, `Lost`), and which clause and names it is asked of.
#[derive(Drop)]
pub(crate) struct Search<'b, 't, 's, 'c, 'm, 'n, B, T> {
    pub(crate) book: &'b B,
    pub(crate) table: &'t mut T,
    pub(crate) trail: &'s mut Stack<'m, u16>,
    pub(crate) choices: &'c mut Stack<'n, Choice>,
    pub(crate) classes: ClassTable,
}

// No model agrees with the branch.
#[derive(Clone, Copy)]
pub(crate) struct Hopeless;

// How an instance stands on a branch: a literal stands; all are denied; all but one, which is open;
// more than one is open. Four cases, two of them with an atom: no Option and no Result.
#[derive(Clone, Copy)]
pub(crate) enum Status {
    Fulfilled,
    Broken,
    Forced(SignedAtom),
    Loose(SignedAtom),
}

// The names that a variable may stand for: `count` of them, from `first` on.
#[derive(Clone, Copy)]
pub(crate) struct Span {
    pub(crate) first: u8,
    pub(crate) count: u8,
}

// Where the search goes on. Nothing rests on it: whatever it says, the search is right, so it is no part of `Search`.
#[derive(Clone, Copy, Default)]
pub(crate) struct Hints {
    // whether what is forced where nothing stands was told
    pub(crate) swept: bool,
    // the trail was followed up to here
    pub(crate) pursued: usize,
    // the clauses before this one were fulfilled when last looked at
    pub(crate) surveyed: usize,
    // and of this one the instances before this one
    pub(crate) instance: usize,
    // atoms of linked names were told for the trail up to here
    pub(crate) spread: usize,
    // and so many classes there were
    pub(crate) classes: usize,
}
