// Looks for an interpretation that satisfies one book and not another: a model of the one book and of the denials
// of an instance of a clause of the other.
ghost use Rattle.std.specs.Prelude.{◌≡◌, ◌<◌, ◌≤◌, [], ◌++◌, length, slice_index_or};
ghost use Rattle.semantics.specs.Meaning.{Assigns};
ghost use Rattle.semantics.specs.Judgements.{Contradictory, Within as Inside};
ghost use Rattle.semantics.specs.Suppositions.{denials};
ghost use Rattle.books.specs.Suppositions.{own_of, counts_with, clauses_with};
ghost use Rattle.instances.specs.Assignments.{names_of};
ghost use Rattle.tables.specs.Spaces.{SameMemory};
ghost use Rattle.tableau.specs.Judged.{lent};
ghost use Rattle.comparison.specs.Compared.{Comparable, Parts, Follows};

use crate::words::stands_in;
use books::book::Book;
use books::supposition::Supposition;
use instances::literals::denial;
use instances::ranges::Ranges;
use questions::verdicts::is_consistent;
use tableau::judge::judge;
use tables::space::Space;
use tables::table::BranchTable;

// Supposes the denials of the literals of an instance of clause i.
fn deny<B: Book, S: Book>(layer: &mut Supposition<B>, other: &S, i: usize, names: [u8; 4])
    requires counts { S.counts other.now ≡ counts_with B.counts layer.old }
    requires own { own_of layer.old ≡ [] }
    requires few { length (clauses_with B.counts B.clauses layer.old) ≤ 65527 }
    requires inside { i < length (S.clauses other.now) }
    requires assigns { Assigns (S.counts other.now) (names_of names) }
    ensures counts { counts_with B.counts layer.new ≡ counts_with B.counts layer.old }
    ensures clauses { clauses_with B.counts B.clauses layer.new ≡ clauses_with B.counts B.clauses layer.old ++ denials (names_of names) (slice_index_or (S.clauses other.now) i []) }
{
    for l in other.literals_of(i) {
        let _ = layer.suppose(denial(names, l));
    }
}

// Whether the one book and the denials of an instance of clause i of the other have a model, which is then written.
fn parts_at<F: Book, S: Book, T: BranchTable>(
    one: &F,
    other: &S,
    i: usize,
    names: [u8; 4],
    space: &mut Space<'_, T>,
    model: &mut [u8],
) -> bool
    requires fine { Comparable (F.counts one.now) (S.counts other.now) (F.clauses one.now) (lent T.BranchTable space.old model.old) }
    requires inside { i < length (S.clauses other.now) }
    requires assigns { Assigns (S.counts other.now) (names_of names) }
    ensures parted { Parts (F.counts one.now) (F.clauses one.now) (S.clauses other.now) (Contradictory (F.counts one.now) (F.clauses one.now ++ denials (names_of names) (slice_index_or (S.clauses other.now) i []))) (lent T.BranchTable space.old model.old) (lent T.BranchTable space.new model.new) result }
    ensures memory { SameMemory space.old space.new }
{
    let mut layer = Supposition::over(one);
    deny(&mut layer, other, i, names);
    is_consistent(judge(&layer, space, model))
}

// The same over the instances of clause i. A `for`: the closure of an `any` would change the space and the model memory,
// and of what a closure changes there a proof learns nothing.
fn parts_instances<F: Book, S: Book, T: BranchTable>(
    one: &F,
    other: &S,
    i: usize,
    space: &mut Space<'_, T>,
    model: &mut [u8],
) -> bool
    requires fine { Comparable (F.counts one.now) (S.counts other.now) (F.clauses one.now) (lent T.BranchTable space.old model.old) }
    requires inside { i < length (S.clauses other.now) }
    ensures parted { Parts (F.counts one.now) (F.clauses one.now) (S.clauses other.now) (Follows (F.counts one.now) (F.clauses one.now) (slice_index_or (S.clauses other.now) i [])) (lent T.BranchTable space.old model.old) (lent T.BranchTable space.new model.new) result }
    ensures memory { SameMemory space.old space.new }
{
    let ranges = Ranges::of(other, i);
    for k in 0..ranges.size() {
        if parts_at(one, other, i, ranges.nth(k), space, model) {
            return true;
        }
    }
    false
}

// The same where clause i does not stand in the one book too; where it does, nothing is looked for.
fn parts_clause<F: Book, S: Book, T: BranchTable>(
    one: &F,
    other: &S,
    i: usize,
    space: &mut Space<'_, T>,
    model: &mut [u8],
) -> bool
    requires fine { Comparable (F.counts one.now) (S.counts other.now) (F.clauses one.now) (lent T.BranchTable space.old model.old) }
    requires inside { i < length (S.clauses other.now) }
    ensures parted { Parts (F.counts one.now) (F.clauses one.now) (S.clauses other.now) (Follows (F.counts one.now) (F.clauses one.now) (slice_index_or (S.clauses other.now) i [])) (lent T.BranchTable space.old model.old) (lent T.BranchTable space.new model.new) result }
    ensures memory { SameMemory space.old space.new }
{
    !stands_in(one, other, i) && parts_instances(one, other, i, space, model)
}

// Whether some interpretation satisfies the one book and not the other, which is then written. A `for`, as above.
pub(crate) fn parts<F: Book, S: Book, T: BranchTable>(
    one: &F,
    other: &S,
    space: &mut Space<'_, T>,
    model: &mut [u8],
) -> bool
    requires { Comparable (F.counts one.now) (S.counts other.now) (F.clauses one.now) (lent T.BranchTable space.old model.old) }
    ensures parted { Parts (F.counts one.now) (F.clauses one.now) (S.clauses other.now) (Inside (F.counts one.now) (F.clauses one.now) (S.clauses other.now)) (lent T.BranchTable space.old model.old) (lent T.BranchTable space.new model.new) result }
    ensures memory { SameMemory space.old space.new }
{
    for i in 0..other.len() {
        if parts_clause(one, other, i, space, model) {
            return true;
        }
    }
    false
}
