// Judging a book without a model memory.
ghost use Rattle.std.specs.Prelude.{ℕ, List};
ghost use Rattle.syntax.specs.Refusals.{UnlessRefused};
ghost use Rattle.tables.specs.Spaces.{SameMemory};
ghost use Rattle.tableau.specs.Judged.{lent, Right};
ghost use Rattle.tableau.specs.Branched.{Branched};

use crate::judge::find;
use crate::verdict::Verdict;
use books::book::Book;
use syntax::types::Refusal;
use tables::space::Space;
use tables::table::BranchTable;

// Whether some interpretation satisfies every clause of the book, as `judge` answers it: if so, the table holds a
// branch that fulfils them, else it is clear. No model is written.
pub fn find_branch<B: Book, T: BranchTable>(
    book: &B,
    space: &mut Space<'_, T>,
) -> Result<Verdict, Refusal>
    ensures branched { (model : List ℕ) → Branched (B.counts book.now) (B.clauses book.now) (lent T.BranchTable space.old model) (lent T.BranchTable space.new model) result }
    ensures right { Right (B.counts book.now) (B.clauses book.now) result }
    ensures kept { UnlessRefused space.old space.new result }
    ensures memory { SameMemory space.old space.new }
{
    space.check_room(book.counts())?;
    match find(book, space.table, space.trail, space.choices) {
        Some(_) => Ok(Verdict::Consistent),
        None => Ok(Verdict::Contradictory),
    }
}
