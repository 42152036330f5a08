#![tactic(auto)]
// Branch tables, which keep one of yes, no or open for each atom, and the stack.
pub mod counting;
pub mod listed;
pub mod packed;
pub mod space;
pub mod stack;
pub mod table;
pub mod walk;
