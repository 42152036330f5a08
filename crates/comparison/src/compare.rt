// The comparison of two books.
ghost use Rattle.std.specs.Prelude.{◌≡◌};
ghost use Rattle.syntax.specs.Refusals.{answer, UnlessRefused};
ghost use Rattle.tables.specs.Spaces.{SameMemory};
ghost use Rattle.tableau.specs.Judged.{lent};
ghost use Rattle.comparison.specs.Compared.{compare_refusal, Comparable, Weighed, Compared};

use crate::answer::Comparison;
use crate::parting::parts;
use books::book::Book;
use syntax::numbers::atom_count;
use syntax::types::Refusal;
use tables::space::Space;
use tables::table::BranchTable;

// The most clauses that a book may have: with the denials of a clause, 8 at most, they are 65,535.
const MOST_CLAUSES: usize = 65527;

// Whether the comparison can be made.
fn check<F: Book, S: Book, T: BranchTable>(
    first: &F,
    second: &S,
    space: &Space<'_, T>,
    model: &[u8],
) -> Result<(), Refusal>
    ensures { result ≡ answer (compare_refusal (F.counts first.now) (S.counts second.now) (F.clauses first.now) (S.clauses second.now) (lent T.BranchTable space.now model.now)) }
{
    let counts = first.counts();
    if counts != second.counts() {
        return Err(Refusal::CountsDiffer);
    }
    space.check_room(counts)?;
    if model.len() < atom_count(counts) {
        return Err(Refusal::MemoryShort);
    }
    if first.len() > MOST_CLAUSES || second.len() > MOST_CLAUSES {
        return Err(Refusal::TooMany);
    }
    Ok(())
}

// The answer that is due.
fn weigh<F: Book, S: Book, T: BranchTable>(
    first: &F,
    second: &S,
    space: &mut Space<'_, T>,
    model: &mut [u8],
) -> Comparison
    requires forth { Comparable (F.counts first.now) (S.counts second.now) (F.clauses first.now) (lent T.BranchTable space.old model.old) }
    requires back { Comparable (S.counts second.now) (F.counts first.now) (S.clauses second.now) (lent T.BranchTable space.old model.old) }
    ensures weighed { Weighed (F.counts first.now) (F.clauses first.now) (S.clauses second.now) (lent T.BranchTable space.old model.old) (lent T.BranchTable space.new model.new) result }
    ensures memory { SameMemory space.old space.new }
{
    if parts(first, second, space, model) {
        return Comparison::FirstOnly;
    }
    if parts(second, first, space, model) {
        return Comparison::SecondOnly;
    }
    Comparison::Equal
}

// Which interpretations two books share: first only, with an interpretation that satisfies the first and not the
// second in the first A bytes of the model memory; else second only, likewise; else equal. Refused as 5 where the
// counts differ, then as 6, 7 or 8 where table, stacks or model memory are too small, then as 10 where a book has
// more than 65,527 clauses. Otherwise the table is left clear.
pub fn compare<F: Book, S: Book, T: BranchTable>(
    first: &F,
    second: &S,
    space: &mut Space<'_, T>,
    model: &mut [u8],
) -> Result<Comparison, Refusal>
    ensures compared { Compared (F.counts first.now) (S.counts second.now) (F.clauses first.now) (S.clauses second.now) (lent T.BranchTable space.old model.old) (lent T.BranchTable space.new model.new) result }
    ensures kept { UnlessRefused space.old space.new result }
    ensures memory { SameMemory space.old space.new }
{
    check(first, second, space, model)?;
    let answer = weigh(first, second, space, model);
    space.table.clear();
    Ok(answer)
}
