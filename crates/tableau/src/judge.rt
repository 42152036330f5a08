// Judging a book.
ghost use Rattle.std.specs.Prelude.{◌≡◌, ◌≤◌, length};
ghost use Rattle.syntax.specs.Numbers.{atoms};
ghost use Rattle.syntax.specs.Refusals.{answer, UnlessRefused};
ghost use Rattle.tables.specs.Spaces.{SameMemory};
ghost use Rattle.tableau.specs.Judged.{lent, judge_refusal, Searched, Judged, Right, OneVerdict};

use crate::search::search;
use crate::verdict::Verdict;
use books::book::Book;
use classes::classed::Classed;
use classes::table::ClassTable;
use syntax::numbers::atom_count;
use syntax::types::Refusal;
use tables::space::Space;
use tables::stack::{Choice, Stack};
use tables::table::BranchTable;

// Whether what is lent does.
fn check<B: Book, T: BranchTable>(
    book: &B,
    space: &Space<'_, T>,
    model: &[u8],
) -> Result<(), Refusal>
    ensures { result ≡ answer (judge_refusal (B.counts book.now) (lent T.BranchTable space.now model.now)) }
{
    let counts = book.counts();
    space.check_room(counts)?;
    if model.len() < atom_count(counts) {
        return Err(Refusal::MemoryShort);
    }
    Ok(())
}

// Clears the table and looks for a branch that fulfils the book, with the memory of two stacks: its class table.
pub(crate) fn find<B: Book, T: BranchTable>(
    book: &B,
    table: &mut T,
    trail: &mut [u16],
    choices: &mut [Choice],
) -> Option<ClassTable>
    requires reach { atoms (B.counts book.now) ≤ length (T.marks table.old) }
    requires room { atoms (B.counts book.now) ≤ T.room table.old }
    requires trail { atoms (B.counts book.now) ≤ length trail.old }
    requires choices { atoms (B.counts book.now) ≤ length choices.old }
    ensures searched { Searched (B.counts book.now) (B.clauses book.now) (T.marks table.old) (T.marks table.new) result }
    ensures room { T.room table.new ≡ T.room table.old }
    ensures loan { T.loan table.new ≡ T.loan table.old }
{
    table.clear();
    let classes = ClassTable::of(book.counts(), table);
    let mut told = Stack::new(trail);
    let mut chosen = Stack::new(choices);
    search(book, table, &mut told, &mut chosen, classes)
}

// Whether some interpretation satisfies every clause of the book. If so, the table holds a branch that
// fulfils them, and the first A bytes of the model memory are that branch's own model; else the table
// is clear. A is the number of the book's ground atoms.
pub fn judge<B: Book, T: BranchTable>(
    book: &B,
    space: &mut Space<'_, T>,
    model: &mut [u8],
) -> Result<Verdict, Refusal>
    ensures judged { Judged (B.counts book.now) (B.clauses book.now) (lent T.BranchTable space.old model.old) (lent T.BranchTable space.new model.new) result }
    ensures right { Right (B.counts book.now) (B.clauses book.now) result }
    ensures kept { UnlessRefused space.old space.new result }
    ensures memory { SameMemory space.old space.new }
{
    check(book, space, model)?;
    match find(book, space.table, space.trail, space.choices) {
        Some(classes) => {
            let branch = Classed {
                counts: book.counts(),
                table: space.table,
                classes: &classes,
            };
            let _ = branch.write_model(model);
            Ok(Verdict::Consistent)
        }
        None => Ok(Verdict::Contradictory),
    }
}

// Judging has one answer.
pub fn judge_laws() -> ()
    ensures { OneVerdict }
{}
