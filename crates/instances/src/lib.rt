#![tactic(auto)]
// The instances of a book's clauses: which assignments there are of a clause's own variables, in order, and what
// terms, atoms and literals come to under one. An assignment is an array: element v is the name of variable v.
pub mod literals;
pub mod ranges;
