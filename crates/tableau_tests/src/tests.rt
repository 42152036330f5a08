// Books judged at both tables.
use books::book::Book;
use books::supposition::Supposition;
use books::working::WorkingBook;
use std::process::Abort;
use std::test::Fail;
use syntax::types::{Atom, Literal, Refusal, SignedAtom, Term};
use tableau::judge::judge;
use tableau::verdict::Verdict;
use tables::listed::ListedTable;
use tables::packed::PackedTable;
use tables::space::Space;
use tables::stack::Choice;
use tables::table::BranchTable;

fn prop(sign: bool, p: u8, term: Term) -> Literal {
    Literal {
        sign,
        atom: Atom::Prop(p, term),
    }
}

fn same(sign: bool, a: u8, b: u8) -> Literal {
    Literal {
        sign,
        atom: Atom::Same(Term::Name(a), Term::Name(b)),
    }
}

fn rel(sign: bool, r: u8, t: Term, u: Term) -> Literal {
    Literal {
        sign,
        atom: Atom::Rel(r, t, u),
    }
}

// Judges with stacks of `entries` and a model memory of `bytes`, each at most 64.
fn judge_with<B: Book, T: BranchTable>(
    book: &B,
    table: &mut T,
    entries: usize,
    more: usize,
    bytes: usize,
) -> Result<Verdict, Refusal> {
    let mut trail = [0u16; 64];
    let mut choices = [Choice {
        height: 0,
        atom: 0,
        sign: false,
    }; 64];
    let mut model = [7u8; 64];
    let mut space = Space {
        table,
        trail: &mut trail[..entries.min(64)],
        choices: &mut choices[..more.min(64)],
    };
    judge(book, &mut space, &mut model[..bytes.min(64)])
}

fn at_packed<B: Book>(book: &B) -> Result<Verdict, Refusal> {
    let mut bytes = [255u8; 16];
    let mut table = PackedTable::new(&mut bytes);
    judge_with(book, &mut table, 64, 64, 64)
}

fn at_listed<B: Book>(book: &B, entries: usize) -> Result<Verdict, Refusal> {
    let mut rows = [SignedAtom {
        atom: 0,
        sign: false,
    }; 64];
    let mut table = ListedTable::new(&mut rows[..entries.min(64)]);
    judge_with(book, &mut table, 64, 64, 64)
}

// The same verdict at both tables.
fn both<B: Book>(rt: &impl Abort, book: &B, verdict: Verdict) {
    assert_eq!(rt; at_packed(book), Ok(verdict));
    assert_eq!(rt; at_listed(book, 64), Ok(verdict));
}

#[test]
fn one_name(rt: HostRuntime) -> Result<(), Fail> {
    let mut book = WorkingBook::new();
    book.open(1, 1, 0)?;
    both(&rt, &book, Verdict::Consistent);
    book.enter(&[prop(true, 0, Term::Var(0))])?;
    both(&rt, &book, Verdict::Consistent);
    book.enter(&[same(false, 0, 0)])?;
    both(&rt, &book, Verdict::Contradictory);
    Ok(())
}

#[test]
fn equal_names(rt: HostRuntime) -> Result<(), Fail> {
    let mut book = WorkingBook::new();
    book.open(2, 1, 1)?;
    book.enter(&[prop(true, 0, Term::Name(0))])?;
    book.enter(&[prop(false, 0, Term::Name(1))])?;
    both(&rt, &book, Verdict::Consistent);
    book.enter(&[same(true, 0, 1)])?;
    both(&rt, &book, Verdict::Contradictory);
    book.strike(0)?;
    book.enter(&[rel(true, 0, Term::Var(0), Term::Var(0))])?;
    both(&rt, &book, Verdict::Consistent);
    book.enter(&[rel(false, 0, Term::Var(3), Term::Var(3))])?;
    both(&rt, &book, Verdict::Contradictory);
    Ok(())
}

#[test]
fn chains(rt: HostRuntime) -> Result<(), Fail> {
    let mut book = WorkingBook::new();
    book.open(2, 3, 0)?;
    book.enter(&[prop(false, 0, Term::Var(0)), prop(true, 1, Term::Var(0))])?;
    book.enter(&[prop(false, 1, Term::Var(2)), prop(true, 2, Term::Var(2))])?;
    book.enter(&[prop(true, 0, Term::Name(1))])?;
    both(&rt, &book, Verdict::Consistent);
    book.enter(&[prop(false, 2, Term::Name(1))])?;
    both(&rt, &book, Verdict::Contradictory);
    Ok(())
}

// Two literals of either sign in all four ways: only choices that fail show that there is no model.
#[test]
fn splits(rt: HostRuntime) -> Result<(), Fail> {
    let mut book = WorkingBook::new();
    book.open(1, 2, 0)?;
    let x = Term::Var(0);
    book.enter(&[prop(true, 0, x), prop(true, 1, x)])?;
    book.enter(&[prop(true, 0, x), prop(false, 1, x)])?;
    book.enter(&[prop(false, 0, x), prop(true, 1, x)])?;
    both(&rt, &book, Verdict::Consistent);
    book.enter(&[prop(false, 0, x), prop(false, 1, x)])?;
    both(&rt, &book, Verdict::Contradictory);
    Ok(())
}

// A relation that leads to at most one thing, over suppositions.
#[test]
fn supposed(rt: HostRuntime) -> Result<(), Fail> {
    let mut book = WorkingBook::new();
    book.open(3, 0, 1)?;
    let (x, y, z) = (Term::Var(0), Term::Var(1), Term::Var(2));
    book.enter(&[
        rel(false, 0, x, y),
        rel(false, 0, x, z),
        Literal {
            sign: true,
            atom: Atom::Same(y, z),
        },
    ])?;
    book.enter(&[rel(true, 0, Term::Name(0), Term::Name(1))])?;
    book.enter(&[rel(true, 0, Term::Name(0), Term::Name(2))])?;
    both(&rt, &book, Verdict::Consistent);
    let mut equal = Supposition::over(&book);
    equal.suppose(same(true, 1, 2))?;
    both(&rt, &equal, Verdict::Consistent);
    let mut distinct = Supposition::over(&book);
    distinct.suppose(same(false, 2, 1))?;
    both(&rt, &distinct, Verdict::Contradictory);
    Ok(())
}

// Six ground atoms: everything of size 6 does, and of size 5 does not.
#[test]
fn sizes(rt: HostRuntime) -> Result<(), Fail> {
    let mut book = WorkingBook::new();
    book.open(2, 1, 0)?;
    book.enter(&[prop(true, 0, Term::Var(0))])?;
    assert_eq!(rt; at_listed(&book, 6), Ok(Verdict::Consistent));
    assert_eq!(rt; at_listed(&book, 5), Err(Refusal::TableSmall));
    let mut bytes = [0u8; 2];
    let mut table = PackedTable::new(&mut bytes);
    assert_eq!(rt;
        judge_with(&book, &mut table, 6, 6, 6),
        Ok(Verdict::Consistent)
    );
    assert_eq!(rt;
        judge_with(&book, &mut table, 5, 6, 5),
        Err(Refusal::StackSmall)
    );
    assert_eq!(rt;
        judge_with(&book, &mut table, 6, 5, 5),
        Err(Refusal::StackSmall)
    );
    assert_eq!(rt;
        judge_with(&book, &mut table, 6, 6, 5),
        Err(Refusal::MemoryShort)
    );
    let mut byte = [0u8; 1];
    let mut small = PackedTable::new(&mut byte);
    assert_eq!(rt;
        judge_with(&book, &mut small, 5, 5, 5),
        Err(Refusal::TableSmall)
    );
    Ok(())
}

// The bytes of the model, and those after it.
#[test]
fn model(rt: HostRuntime) -> Result<(), Fail> {
    let mut book = WorkingBook::new();
    book.open(2, 1, 0)?;
    book.enter(&[prop(true, 0, Term::Name(1))])?;
    book.enter(&[same(false, 0, 1)])?;
    let mut bytes = [0u8; 2];
    let mut table = PackedTable::new(&mut bytes);
    let mut trail = [0u16; 6];
    let mut choices = [Choice {
        height: 0,
        atom: 0,
        sign: false,
    }; 6];
    let mut space = Space {
        table: &mut table,
        trail: &mut trail,
        choices: &mut choices,
    };
    let mut model = [7u8; 8];
    assert_eq!(rt;
        judge(&book, &mut space, &mut model),
        Ok(Verdict::Consistent)
    );
    assert!(rt; model == [1, 0, 0, 1, 0, 1, 7, 7]);
    book.enter(&[prop(false, 0, Term::Name(1))])?;
    assert_eq!(rt;
        judge(&book, &mut space, &mut model),
        Ok(Verdict::Contradictory)
    );
    assert!(rt; model == [1, 0, 0, 1, 0, 1, 7, 7]);
    Ok(())
}
