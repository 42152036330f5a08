#![tactic(auto)]
// Lists of calls on a working book, carried out in order.
pub mod calls;
pub mod laws;
pub mod perform;
