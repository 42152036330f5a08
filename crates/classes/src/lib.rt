#![tactic(auto)]
// What stands on one branch for linked names: which names are linked, whether the branch clashes, and its own model.
pub mod clash;
pub mod classed;
mod gather;
pub mod marks;
pub mod model;
mod pairs;
mod symbol;
pub mod table;
