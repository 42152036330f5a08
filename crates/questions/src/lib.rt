#![tactic(auto)]
// Questions on any book: whether two names are one thing, and whether a ground literal holds.
pub mod answers;
pub mod ask;
pub mod laws;
pub mod verdicts;
