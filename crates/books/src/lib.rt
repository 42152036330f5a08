#![tactic(auto)]
// Books of clauses: the trait, the working book, and the supposition that is laid on any book.
pub mod book;
pub mod laws;
pub mod literals;
pub mod supposition;
pub mod working;
