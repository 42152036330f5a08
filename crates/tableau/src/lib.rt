#![tactic(auto)]
// Judging: whether some interpretation satisfies every clause of a book, and if so one that does.
pub mod branch;
pub(crate) mod clash;
pub mod judge;
pub(crate) mod moves;
pub(crate) mod pursue;
pub(crate) mod scan;
pub(crate) mod search;
pub(crate) mod spans;
pub(crate) mod survey;
pub(crate) mod sweep;
pub(crate) mod touch;
pub(crate) mod types;
pub(crate) mod variants;
pub mod verdict;
