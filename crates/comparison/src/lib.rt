#![tactic(auto)]
// Comparing two books: whether the same interpretations satisfy both.
pub mod answer;
pub mod compare;
pub mod laws;
pub(crate) mod parting;
pub(crate) mod words;
