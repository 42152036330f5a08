#![tactic(auto)]
// The vocabulary of rule books: terms, atoms, literals, counts and refusals; what is lawful; the
// bytes of a literal; the numbers of the ground atoms.
pub mod codes;
pub mod counts;
pub mod lawful;
pub mod numbers;
pub mod refusals;
pub mod signs;
pub mod types;
