// The types that books, branches and refusals are made of. No clause stands in this file, so that
// specs/ can name them all.

// A name of the book, or a variable.
#[derive(Clone, Copy, PartialEq)]
pub enum Term {
    Name(u8),
    Var(u8),
}

// Two terms are one thing; a thing has a property; two things stand in a relation.
#[derive(Clone, Copy, PartialEq)]
pub enum Atom {
    Same(Term, Term),
    Prop(u8, Term),
    Rel(u8, Term, Term),
}

// An atom said or, where the sign is false, denied.
#[derive(Clone, Copy, PartialEq)]
pub struct Literal {
    pub sign: bool,
    pub atom: Atom,
}

// An atom over names alone.
#[derive(Clone, Copy, PartialEq)]
pub enum Ground {
    Same(u8, u8),
    Prop(u8, u8),
    Rel(u8, u8, u8),
}

// Why an atom is not one over names alone.
#[derive(Clone, Copy, PartialEq, Debug)]
pub struct HasVariable;

// The number of a ground atom, and a sign.
#[derive(Clone, Copy, PartialEq)]
pub struct SignedAtom {
    pub atom: u16,
    pub sign: bool,
}

// What a branch says of a ground atom.
#[derive(Clone, Copy, PartialEq)]
pub enum Mark {
    Open,
    Yes,
    No,
}

// A word of a text: its line and its place in the line, both from 1. Both are 0 where the text as a
// whole is meant.
#[derive(Clone, Copy, PartialEq, Default, Debug)]
pub struct Place {
    pub line: usize,
    pub word: usize,
}

// Why a call is refused. specs/Refusals.antt lists the number of each case and the values it carries.
#[derive(Clone, Copy, PartialEq, Debug)]
pub enum Refusal {
    Limits,
    LimitsAt(Place),
    Unlawful,
    BookFull,
    BookFullAt(Place),
    StrikeAbove,
    CountsDiffer,
    TableSmall,
    StackSmall,
    MemoryShort,
    NotInterpretation,
    TooMany,
    FileLength,
    BlockCheck(usize),
    BlockLayout(usize),
    TextFault(Place),
    BeyondReach,
    Standing,
    TableFull,
    NotStanding,
}
