// Tests of the crate books, and code that is generic over books of any kind.
ghost use Rattle.std.specs.Prelude.{◌≡◌, [], ◌∷◌, ◌++◌, IfOk, Decides, length, filter, slice_index_or, false};
ghost use Rattle.std.specs.List.{AllByRecursion};
ghost use Rattle.syntax.specs.Lawful.{GroundLiteral};
ghost use Rattle.books.specs.Lists.{literal_at};
ghost use Rattle.books.specs.Suppositions.{unit};

use books::book::Book;
use books::supposition::Supposition;
use books::working::WorkingBook;
use std::test::Fail;
use syntax::lawful::is_ground_literal;
use syntax::types::{Atom, Literal, Refusal, Term};

// Literal j of clause i in a pile of three: the clauses are those of the book, and then a, b and d.
fn in_pile<B: Book>(
    book: &B,
    a: Literal,
    b: Literal,
    d: Literal,
    i: usize,
    j: usize,
) -> Result<Option<Literal>, Refusal>
    ensures { IfOk result (λ o. o ≡ literal_at (B.clauses book.now ++ unit a ∷ unit b ∷ unit d ∷ []) i j) }
{
    let mut first = Supposition::over(book);
    first.suppose(a)?;
    let mut second = Supposition::over(first);
    second.suppose(b)?;
    let mut third = Supposition::over(&second);
    third.suppose(d)?;
    Ok(third.literal(i, j))
}

// Whether a book of any kind has no variable.
fn is_ground<B: Book>(book: &B) -> bool
    ensures { Decides result (AllByRecursion (AllByRecursion (GroundLiteral (B.counts book.now))) (B.clauses book.now)) }
{
    for i in 0..book.len() {
        for l in book.literals_of(i) {
            if !is_ground_literal(book.counts(), l) {
                return false;
            }
        }
    }
    true
}

// Whether some literal of clause i says yes.
fn has_positive<B: Book>(book: &B, i: usize) -> bool
    ensures { Decides result (¬ AllByRecursion (λ l. l.sign ≡ false) (slice_index_or (B.clauses book.now) i [])) }
{
    for l in book.literals_of(i) {
        if l.sign {
            return true;
        }
    }
    false
}

// How many literals of clause i say yes.
fn positives<B: Book>(book: &B, i: usize) -> usize
    ensures { result ≡ length (filter (λ l. l.sign) (slice_index_or (B.clauses book.now) i [])) }
{
    book.literals_of(i).filter(|l| l.sign).count()
}

// The property p of the name a, and of the variable 1.
fn of_name(p: u8, a: u8) -> Literal {
    Literal {
        sign: true,
        atom: Atom::Prop(p, Term::Name(a)),
    }
}

fn of_variable(p: u8) -> Literal {
    Literal {
        sign: false,
        atom: Atom::Prop(p, Term::Var(1)),
    }
}

#[test]
fn counts_and_clauses(rt: HostRuntime) {
    let mut book = WorkingBook::new();
    assert_eq!(rt; book.counts().names(), 1);
    assert_eq!(rt; book.open(0, 0, 0), Err(Refusal::Limits));
    assert_eq!(rt; book.open(33, 0, 0), Err(Refusal::Limits));
    assert_eq!(rt; book.open(32, 2, 0), Ok(()));
    assert_eq!(rt; book.enter(&[]), Err(Refusal::Unlawful));
    assert_eq!(rt; book.enter(&[of_name(1, 31); 9]), Err(Refusal::Unlawful));
    assert_eq!(rt; book.enter(&[of_name(2, 0)]), Err(Refusal::Unlawful));
    assert_eq!(rt; book.enter(&[of_name(1, 31); 8]), Ok(()));
    assert_eq!(rt; book.enter(&[of_variable(0), of_name(1, 4)]), Ok(()));
    assert_eq!(rt; book.literals(0), Some(8));
    assert_eq!(rt; book.literals(2), None);
    assert!(rt; book.literal(1, 1) == Some(of_name(1, 4)));
    assert!(rt; book.literal(1, 2) == None);
    assert_eq!(rt; book.open(4, 9, 9), Err(Refusal::Limits));
    assert_eq!(rt; book.len(), 2);
    assert_eq!(rt; book.open(4, 9, 8), Ok(()));
    assert_eq!(rt; book.len(), 0);
}

#[test]
fn full(rt: HostRuntime) -> Result<(), Fail> {
    let mut book = WorkingBook::new();
    book.open(1, 1, 0)?;
    for _ in 0..256 {
        assert_eq!(rt; book.enter(&[of_name(0, 0)]), Ok(()));
    }
    assert_eq!(rt; book.enter(&[of_name(0, 0)]), Err(Refusal::BookFull));
    assert_eq!(rt; book.enter(&[of_name(0, 1)]), Err(Refusal::Unlawful));
    assert_eq!(rt; book.strike(257), Err(Refusal::StrikeAbove));
    assert_eq!(rt; book.len(), 256);
    assert_eq!(rt; book.strike(2), Ok(()));
    assert_eq!(rt; book.enter(&[of_variable(0)]), Ok(()));
    assert_eq!(rt; book.len(), 3);
    assert!(rt; book.literal(2, 0) == Some(of_variable(0)));
    Ok(())
}

#[test]
fn piles(rt: HostRuntime) -> Result<(), Fail> {
    let mut book = WorkingBook::new();
    book.open(4, 1, 0)?;
    book.enter(&[of_variable(0), of_name(0, 0)])?;
    assert!(rt;
        in_pile(&book, of_name(0, 1), of_name(0, 2), of_name(0, 3), 0, 1) == Ok(Some(of_name(0, 0)))
    );
    assert!(rt;
        in_pile(&book, of_name(0, 1), of_name(0, 2), of_name(0, 3), 1, 0) == Ok(Some(of_name(0, 1)))
    );
    assert!(rt;
        in_pile(&book, of_name(0, 1), of_name(0, 2), of_name(0, 3), 3, 0) == Ok(Some(of_name(0, 3)))
    );
    assert!(rt;
        in_pile(&book, of_name(0, 1), of_variable(0), of_name(0, 3), 0, 0) == Err(Refusal::Unlawful)
    );
    let mut layer = Supposition::over(&book);
    for _ in 0..16 {
        assert_eq!(rt; layer.suppose(of_name(0, 1)), Ok(()));
    }
    assert_eq!(rt; layer.suppose(of_name(0, 1)), Err(Refusal::TooMany));
    assert_eq!(rt; layer.suppose(of_name(0, 4)), Err(Refusal::Unlawful));
    assert_eq!(rt; layer.len(), 17);
    assert_eq!(rt; layer.literals(16), Some(1));
    assert_eq!(rt; layer.literals(17), None);
    assert_eq!(rt; is_ground(&layer), false);
    book.strike(0)?;
    assert_eq!(rt; is_ground(&Supposition::over(&book)), true);
    Ok(())
}

#[test]
fn signs(rt: HostRuntime) -> Result<(), Fail> {
    let mut book = WorkingBook::new();
    book.open(4, 1, 0)?;
    book.enter(&[of_variable(0), of_name(0, 0), of_variable(0), of_name(0, 1)])?;
    book.enter(&[of_variable(0)])?;
    assert!(rt; has_positive(&book, 0));
    assert_eq!(rt; positives(&book, 0), 2);
    assert!(rt; !has_positive(&book, 1));
    assert_eq!(rt; positives(&book, 1), 0);
    assert!(rt; !has_positive(&book, 2));
    assert_eq!(rt; book.literals_of(2).count(), 0);
    Ok(())
}
