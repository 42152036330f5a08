// What a call is lent to work with.
ghost use Rattle.std.specs.Prelude.{◌≡◌, length};
ghost use Rattle.syntax.specs.Refusals.{answer};
ghost use Rattle.tables.specs.Lent.{table_refusal};

use crate::stack::Choice;
use crate::table::BranchTable;
use syntax::counts::Counts;
use syntax::numbers::atom_count;
use syntax::types::Refusal;

// A branch table, and memory for the trail and for the choices. They may hold anything.
#[derive(Drop)]
pub struct Space<'a, T> {
    pub table: &'a mut T,
    pub trail: &'a mut [u16],
    pub choices: &'a mut [Choice],
}

impl<'a, T: BranchTable> Space<'a, T> {
    // Whether there is room for a branch over a book with these counts: refused as 6 where the table's reach or
    // capacity is below the number of ground atoms, then as 7 where the trail or the choices have fewer places.
    pub fn check_room(&self, counts: Counts) -> Result<(), Refusal>
        ensures { result ≡ answer (table_refusal counts (length (T.marks self.now.table.now)) (T.room self.now.table.now) (length self.now.trail.now) (length self.now.choices.now)) }
    {
        let count = atom_count(counts);
        if self.table.reach() < count || self.table.capacity() < count {
            return Err(Refusal::TableSmall);
        }
        if self.trail.len() < count || self.choices.len() < count {
            return Err(Refusal::StackSmall);
        }
        Ok(())
    }
}
