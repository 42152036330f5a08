use books::supposition::Supposition;
use books::working::WorkingBook;
use checking::bytes::is_interpretation;
use checking::checks;
use checking::finding::Failure;
use std::test::Fail;
use syntax::counts::Counts;
use syntax::types::{Atom, Literal, Refusal, Term};

fn property(sign: bool, t: Term) -> Literal {
    Literal {
        sign,
        atom: Atom::Prop(0, t),
    }
}

fn relation(sign: bool, t: Term, u: Term) -> Literal {
    Literal {
        sign,
        atom: Atom::Rel(0, t, u),
    }
}

// Two names, a property P and a relation R. Clause 0: who has P stands in R to itself. Clause 1: R
// goes both ways.
fn example() -> Result<WorkingBook, Refusal> {
    let (x, y) = (Term::Var(0), Term::Var(1));
    let mut book = WorkingBook::new();
    book.open(2, 1, 1)?;
    book.enter(&[property(false, x), relation(true, x, x)])?;
    book.enter(&[relation(false, x, y), relation(true, y, x)])?;
    Ok(book)
}

fn satisfied(r: Result<Option<Failure>, Refusal>) -> bool {
    r == Ok(None)
}

fn failing(r: Result<Option<Failure>, Refusal>, clause: usize, names: [u8; 4]) -> bool {
    r == Ok(Some(Failure { clause, names }))
}

fn refused(r: Result<Option<Failure>, Refusal>) -> bool {
    r == Err(Refusal::NotInterpretation)
}

// The bytes: same 00 01 10 11, P 0 1, R 00 01 10 11.
#[test]
fn models(rt: HostRuntime) -> Result<(), Fail> {
    let book = example()?;
    assert!(rt; satisfied(checks::check(&book, &[1, 0, 0, 1, 1, 0, 1, 0, 0, 0])));
    assert!(rt; satisfied(checks::check(&book, &[1, 1, 1, 1, 1, 1, 1, 1, 1, 1])));
    Ok(())
}

#[test]
fn first_failing(rt: HostRuntime) -> Result<(), Fail> {
    let book = example()?;
    // both clauses fail, the first at name 1
    assert!(rt;
        failing(
            checks::check(&book, &[1, 0, 0, 1, 1, 1, 1, 1, 0, 0]),
            0,
            [1, 0, 0, 0],
        )
    );
    // clause 1 alone fails
    assert!(rt;
        failing(
            checks::check(&book, &[1, 0, 0, 1, 1, 0, 1, 1, 0, 0]),
            1,
            [0, 1, 0, 0],
        )
    );
    assert!(rt;
        failing(
            checks::check(&book, &[1, 0, 0, 1, 1, 0, 1, 0, 1, 0]),
            1,
            [1, 0, 0, 0],
        )
    );
    Ok(())
}

// A clause over the variables 1 and 3 fails at 0 1 and at 1 0: 0 1 comes first, and the variables 0 and
// 2 have name 0.
#[test]
fn order_of_variables(rt: HostRuntime) -> Result<(), Fail> {
    let mut book = WorkingBook::new();
    book.open(2, 1, 1)?;
    book.enter(&[relation(true, Term::Var(1), Term::Var(3))])?;
    assert!(rt;
        failing(
            checks::check(&book, &[1, 0, 0, 1, 0, 0, 1, 0, 0, 1]),
            0,
            [0, 0, 0, 1],
        )
    );
    Ok(())
}

#[test]
fn a_layer_is_a_book(rt: HostRuntime) -> Result<(), Fail> {
    let book = example()?;
    let mut layer = Supposition::over(&book);
    layer.suppose(property(true, Term::Name(1)))?;
    assert!(rt;
        failing(
            checks::check(&layer, &[1, 0, 0, 1, 1, 0, 1, 0, 0, 0]),
            2,
            [0, 0, 0, 0],
        )
    );
    assert!(rt; satisfied(checks::check(&layer, &[1, 0, 0, 1, 1, 1, 1, 0, 0, 1])));
    Ok(())
}

// A byte 2; same goes one way only; a name is not the same as itself; P, or R in its second or first
// place, tells equal names apart.
const DAMAGED: [[u8; 10]; 6] = [
    [1, 0, 0, 1, 2, 0, 1, 0, 0, 0],
    [1, 1, 0, 1, 1, 1, 1, 1, 1, 1],
    [1, 0, 0, 0, 1, 0, 1, 0, 0, 0],
    [1, 1, 1, 1, 1, 0, 1, 1, 1, 1],
    [1, 1, 1, 1, 1, 1, 1, 0, 1, 0],
    [1, 1, 1, 1, 1, 1, 1, 1, 0, 0],
];

#[test]
fn not_of_an_interpretation(rt: HostRuntime) -> Result<(), Fail> {
    let book = example()?;
    for bytes in DAMAGED {
        assert!(rt; refused(checks::check(&book, &bytes)));
    }
    assert!(rt; refused(checks::check(&book, &[1, 0, 0, 1, 1, 0, 1, 0, 0])));
    assert!(rt; refused(checks::check(&book, &[1, 0, 0, 1, 1, 0, 1, 0, 0, 0, 0])));
    Ok(())
}

#[test]
fn not_transitive(rt: HostRuntime) -> Result<(), Fail> {
    let counts = Counts::new(3, 0, 0)?;
    assert!(rt; is_interpretation(counts, &[1, 1, 1, 1, 1, 1, 1, 1, 1]));
    assert!(rt; is_interpretation(counts, &[1, 0, 1, 0, 1, 0, 1, 0, 1]));
    assert!(rt; !is_interpretation(counts, &[1, 1, 0, 1, 1, 1, 0, 1, 1]));
    Ok(())
}
