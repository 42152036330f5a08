// A branch, read through the classes of its names.
use crate::table::ClassTable;
use syntax::counts::Counts;

// What stands on a branch, and the leaders of the names. No promise ties the two: `ClassTable::of` makes the class
// table that fits the branch.
#[derive_where(Clone, Copy)]
pub struct Classed<'a, T> {
    pub counts: Counts,
    pub table: &'a T,
    pub classes: &'a ClassTable,
}
