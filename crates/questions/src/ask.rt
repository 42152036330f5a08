// The questions: each is put twice, as whether the book with the literal has a model, and with its denial.
ghost use Rattle.std.specs.Prelude.{◌≡◌, ℕ, ◌≤◌, List, [], ◌∷◌, ◌++◌, length, Decides};
ghost use Rattle.semantics.specs.Judgements.{Consistent};
ghost use Rattle.syntax.specs.Lawful.{GroundLiteral};
ghost use Rattle.syntax.specs.Refusals.{answer, UnlessRefused};
ghost use Rattle.books.specs.Suppositions.{unit, counts_with, clauses_with};
ghost use Rattle.tables.specs.Spaces.{SameMemory};
ghost use Rattle.tableau.specs.Judged.{lent, Kept};
ghost use Rattle.questions.specs.Asked.{sameness_literal, of_both, ask_refusal, Askable, SettledWith, Asked, AskedNames};

use crate::answers::{Certainty, Sameness};
use crate::verdicts::is_consistent;
use books::book::Book;
use books::supposition::Supposition;
use syntax::lawful::is_ground_literal;
use syntax::types::{Atom, Literal, Refusal, Term};
use tableau::branch::find_branch;
use tables::space::Space;
use tables::table::BranchTable;

// The most clauses that a book may have, as in a comparison.
const MOST_CLAUSES: usize = 65527;

// Whether the question can be put.
fn check<B: Book, T: BranchTable>(book: &B, l: Literal, space: &Space<'_, T>) -> Result<(), Refusal>
    ensures { result ≡ answer (ask_refusal (B.counts book.now) (B.clauses book.now) l (lent T.BranchTable space.now [])) }
{
    let counts = book.counts();
    if !is_ground_literal(counts, l) {
        return Err(Refusal::Unlawful);
    }
    space.check_room(counts)?;
    if book.len() > MOST_CLAUSES {
        return Err(Refusal::TooMany);
    }
    Ok(())
}

// The book with the literal as a further clause.
fn with_literal<B: Book>(book: B, l: Literal) -> Supposition<B>
    requires lawful { GroundLiteral (B.counts book) l }
    requires few { length (B.clauses book) ≤ 65527 }
    ensures counts { counts_with B.counts result ≡ B.counts book }
    ensures clauses { clauses_with B.counts B.clauses result ≡ B.clauses book ++ unit l ∷ [] }
{
    let mut layer = Supposition::over(book);
    let _ = layer.suppose(l);
    layer
}

// Whether the book and the literal together have a model.
fn has_model_with<B: Book, T: BranchTable>(book: &B, l: Literal, space: &mut Space<'_, T>) -> bool
    requires { Askable (B.counts book.now) (B.clauses book.now) l (lent T.BranchTable space.old []) }
    ensures right { Decides result (Consistent (B.counts book.now) (B.clauses book.now ++ unit l ∷ [])) }
    ensures kept { Kept (lent T.BranchTable space.old []) (lent T.BranchTable space.new []) }
    ensures memory { SameMemory space.old space.new }
{
    is_consistent(find_branch(&with_literal(book, l), space))
}

// The answer where the book with the literal, and with its denial, has a model or not.
fn certainty(with: bool, without: bool) -> Certainty
    ensures { result ≡ of_both «with» without }
{
    match (with, without) {
        (true, true) => Certainty::Open,
        (true, false) => Certainty::Sure,
        (false, true) => Certainty::Excluded,
        (false, false) => Certainty::Contradictory,
    }
}

// Settles a ground literal, and clears the table.
fn settle<B: Book, T: BranchTable>(book: &B, l: Literal, space: &mut Space<'_, T>) -> Certainty
    requires { Askable (B.counts book.now) (B.clauses book.now) l (lent T.BranchTable space.old []) }
    ensures settled { SettledWith (B.counts book.now) (B.clauses book.now) l (lent T.BranchTable space.old []) (lent T.BranchTable space.new []) result }
    ensures memory { SameMemory space.old space.new }
{
    let with = has_model_with(book, l, space);
    let without = has_model_with(book, !l, space);
    space.table.clear();
    certainty(with, without)
}

// Whether a ground literal holds in every model of the book, in none, or in some and not in others. Refused as 2
// where it has a variable or is unlawful, then as 6 or 7 where table or stacks are too small, then as 10
// where the book has more than 65,527 clauses. Otherwise the table is left clear.
pub fn holds<B: Book, T: BranchTable>(
    book: &B,
    l: Literal,
    space: &mut Space<'_, T>,
) -> Result<Certainty, Refusal>
    ensures asked { (model : List ℕ) → Asked (B.counts book.now) (B.clauses book.now) l (lent T.BranchTable space.old model) (lent T.BranchTable space.new model) result }
    ensures kept { UnlessRefused space.old space.new result }
    ensures memory { SameMemory space.old space.new }
{
    check(book, l, space)?;
    Ok(settle(book, l, space))
}

// The literal that says of two names that they are one thing.
fn same_literal(a: u8, b: u8) -> Literal
    ensures { result ≡ sameness_literal a b }
{
    Literal {
        sign: true,
        atom: Atom::Same(Term::Name(a), Term::Name(b)),
    }
}

// Whether every model of the book makes two names one thing, none does, or some do and others do not. Refused as
// 2 where one is no name of the book, and else as `holds` is. Otherwise the table is left clear.
pub fn same<B: Book, T: BranchTable>(
    book: &B,
    a: u8,
    b: u8,
    space: &mut Space<'_, T>,
) -> Result<Sameness, Refusal>
    ensures asked { (model : List ℕ) → AskedNames (B.counts book.now) (B.clauses book.now) a b (lent T.BranchTable space.old model) (lent T.BranchTable space.new model) result }
    ensures kept { UnlessRefused space.old space.new result }
    ensures memory { SameMemory space.old space.new }
{
    Ok(Sameness::from(holds(book, same_literal(a, b), space)?))
}
