// A trail taken back, over any branch table.
ghost use Rattle.std.specs.Prelude.{◌≡◌, take, drop};
ghost use Rattle.tables.specs.Items.{items, slots_of, loan_of};
ghost use Rattle.tables.specs.Walks.{opened, PoppedAbove};

use crate::stack::Stack;
use crate::table::BranchTable;

// Takes the top of the trail off, where it lies at or above a height.
fn pop_above(trail: &mut Stack<'_, u16>, height: usize) -> Option<u16>
    ensures popped { PoppedAbove (items trail.old) height (items trail.new) result }
    ensures slots { slots_of trail.new ≡ slots_of trail.old }
    ensures lent { loan_of trail.new ≡ loan_of trail.old }
{
    if trail.height() > height {
        trail.pop()
    } else {
        None
    }
}

// Takes the atoms of the trail at or above a height off, from the top down, and opens each.
pub fn untell_to<T: BranchTable>(table: &mut T, trail: &mut Stack<'_, u16>, height: usize)
    ensures trail { items trail.new ≡ take height (items trail.old) }
    ensures marks { T.marks table.new ≡ opened (T.marks table.old) (drop height (items trail.old)) }
    ensures room { T.room table.new ≡ T.room table.old }
    ensures loan { T.loan table.new ≡ T.loan table.old }
    ensures slots { slots_of trail.new ≡ slots_of trail.old }
    ensures lent { loan_of trail.new ≡ loan_of trail.old }
{
    while let Some(atom) = pop_above(trail, height) {
        let _ = table.untell(atom as usize);
    }
}
