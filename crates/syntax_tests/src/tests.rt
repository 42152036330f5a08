use std::test::Fail;
use syntax::codes::{decode_literal, encode_literal};
use syntax::counts::Counts;
use syntax::lawful::{is_ground_literal, is_lawful_clause};
use syntax::numbers::{atom_at, atom_count, atom_number};
use syntax::types::{Atom, Ground, Literal, Place, Refusal, Term};

const LITERALS: [(Literal, [u8; 5]); 6] = [
    (
        Literal {
            sign: true,
            atom: Atom::Same(Term::Name(0), Term::Name(2)),
        },
        [1, 0, 0, 0, 2],
    ),
    (
        Literal {
            sign: false,
            atom: Atom::Same(Term::Var(0), Term::Var(3)),
        },
        [0, 0, 0, 32, 35],
    ),
    (
        Literal {
            sign: true,
            atom: Atom::Prop(1, Term::Name(2)),
        },
        [1, 1, 1, 2, 0],
    ),
    (
        Literal {
            sign: false,
            atom: Atom::Prop(0, Term::Var(1)),
        },
        [0, 1, 0, 33, 0],
    ),
    (
        Literal {
            sign: true,
            atom: Atom::Rel(0, Term::Name(1), Term::Var(2)),
        },
        [1, 2, 0, 1, 34],
    ),
    (
        Literal {
            sign: false,
            atom: Atom::Rel(0, Term::Var(3), Term::Name(0)),
        },
        [0, 2, 0, 35, 0],
    ),
];

// Bytes that no lawful literal of 3 names, 2 properties and 1 relation has.
const DAMAGED: [[u8; 5]; 9] = [
    [2, 0, 0, 0, 2],
    [1, 3, 0, 0, 2],
    [1, 0, 1, 0, 2],
    [1, 0, 0, 3, 2],
    [1, 0, 0, 0, 36],
    [1, 1, 2, 2, 0],
    [1, 1, 1, 2, 1],
    [1, 2, 1, 1, 34],
    [1, 2, 0, 31, 0],
];

#[test]
fn literals_and_bytes(rt: HostRuntime) -> Result<(), Fail> {
    let counts = Counts::new(3, 2, 1)?;
    for (l, bytes) in LITERALS {
        assert!(rt; decode_literal(counts, &bytes) == Some(l));
        assert!(rt; encode_literal(counts, l) == Some(bytes));
    }
    for bytes in DAMAGED {
        assert!(rt; decode_literal(counts, &bytes).is_none());
    }
    assert!(rt; decode_literal(counts, &[1, 0, 0, 0]).is_none());
    assert!(rt; decode_literal(counts, &[1, 0, 0, 0, 2, 0]).is_none());
    Ok(())
}

#[test]
fn unlawful_literals_have_no_bytes(rt: HostRuntime) -> Result<(), Fail> {
    let counts = Counts::new(3, 2, 1)?;
    let name = Literal {
        sign: true,
        atom: Atom::Prop(1, Term::Name(3)),
    };
    let variable = Literal {
        sign: true,
        atom: Atom::Prop(1, Term::Var(4)),
    };
    let property = Literal {
        sign: true,
        atom: Atom::Prop(2, Term::Name(0)),
    };
    assert!(rt; encode_literal(counts, name).is_none());
    assert!(rt; encode_literal(counts, variable).is_none());
    assert!(rt; encode_literal(counts, property).is_none());
    Ok(())
}

#[test]
fn limits(rt: HostRuntime) -> Result<(), Fail> {
    assert!(rt; Counts::new(32, 32, 8).is_ok());
    assert!(rt; atom_count(Counts::new(32, 32, 8)?) == 10240);
    assert!(rt; Counts::new(1, 0, 0).is_ok());
    for (names, properties, relations) in [(0, 0, 0), (33, 0, 0), (1, 33, 0), (1, 0, 9)] {
        match Counts::new(names, properties, relations) {
            Ok(_) => return Err(Fail::new("outside the limits, and taken")),
            Err(refusal) => assert_eq!(rt; refusal.cause(), 1),
        }
    }
    Ok(())
}

#[test]
fn clauses(rt: HostRuntime) -> Result<(), Fail> {
    let counts = Counts::new(3, 2, 1)?;
    let l = Literal {
        sign: true,
        atom: Atom::Prop(1, Term::Var(0)),
    };
    let clause = [l; 9];
    assert!(rt; !is_lawful_clause(counts, &clause[0..0]));
    assert!(rt; is_lawful_clause(counts, &clause[0..1]));
    assert!(rt; is_lawful_clause(counts, &clause[0..8]));
    assert!(rt; !is_lawful_clause(counts, &clause));
    assert!(rt; !is_ground_literal(counts, l));
    Ok(())
}

#[test]
fn numbers(rt: HostRuntime) -> Result<(), Fail> {
    let counts = Counts::new(3, 2, 1)?;
    assert!(rt; atom_count(counts) == 24);
    assert!(rt; atom_number(counts, Ground::Same(1, 2)) == Some(5));
    assert!(rt; atom_number(counts, Ground::Prop(1, 0)) == Some(12));
    assert!(rt; atom_number(counts, Ground::Rel(0, 2, 1)) == Some(22));
    assert!(rt; atom_number(counts, Ground::Rel(1, 2, 1)).is_none());
    for k in 0..24 {
        match atom_at(counts, k) {
            Some(g) => assert!(rt; atom_number(counts, g) == Some(k)),
            None => return Err(Fail::new("no atom")),
        }
    }
    assert!(rt; atom_at(counts, 24).is_none());
    Ok(())
}

// The numbers by which calls refuse, as docs/RULES.md lists them.
#[test]
fn causes(rt: HostRuntime) -> Result<(), Fail> {
    let place = Place { line: 2, word: 3 };
    let refusals = [
        (Refusal::Limits, 1),
        (Refusal::LimitsAt(place), 1),
        (Refusal::Unlawful, 2),
        (Refusal::BookFull, 3),
        (Refusal::BookFullAt(place), 3),
        (Refusal::StrikeAbove, 4),
        (Refusal::CountsDiffer, 5),
        (Refusal::TableSmall, 6),
        (Refusal::StackSmall, 7),
        (Refusal::MemoryShort, 8),
        (Refusal::NotInterpretation, 9),
        (Refusal::TooMany, 10),
        (Refusal::FileLength, 11),
        (Refusal::BlockCheck(4), 12),
        (Refusal::BlockLayout(4), 13),
        (Refusal::TextFault(place), 14),
        (Refusal::BeyondReach, 15),
        (Refusal::Standing, 16),
        (Refusal::TableFull, 17),
        (Refusal::NotStanding, 18),
    ];
    for (refusal, number) in refusals {
        assert_eq!(rt; refusal.cause(), number);
    }
    Ok(())
}
