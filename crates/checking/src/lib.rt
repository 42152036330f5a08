#![tactic(auto)]
// Checking a model: whether bytes are those of an interpretation, and whether it satisfies a book.
pub mod bytes;
mod candidate;
pub mod checks;
pub mod finding;
mod values;
