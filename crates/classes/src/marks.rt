// What a branch table says of a ground atom.
ghost use Rattle.std.specs.Prelude.{◌≡◌};
ghost use Rattle.syntax.specs.Numbers.{LawfulGround};
ghost use Rattle.semantics.specs.Branch.{mark_at};

use syntax::counts::Counts;
use syntax::numbers::atom_number;
use syntax::types::{Ground, Mark};
use tables::table::BranchTable;

// The mark of a ground atom; an atom past the table's reach, or that the book does not have, is open.
// It is no method of `Classed`: the class table is made of the marks, before there are classes.
pub fn mark_of<T: BranchTable>(counts: Counts, table: &T, g: Ground) -> Mark
    ensures lawful { LawfulGround counts g → result ≡ mark_at counts (T.marks table.now) g }
    ensures other { (LawfulGround counts g → ⊥) → result ≡ Mark.Open }
{
    let Some(k) = atom_number(counts, g) else {
        return Mark::Open;
    };
    table.ask(k).unwrap_or(Mark::Open)
}
