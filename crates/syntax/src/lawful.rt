// Whether terms, literals and clauses are lawful at the counts of a book.
ghost use Rattle.std.specs.Prelude.{◌≡◌, Bool, Decides};
ghost use Rattle.syntax.specs.Lawful.{Lawful, AtomBy, GroundTerm, LawfulLiteral, GroundLiteral, lawful_term, ground_term, atom_by};
ghost use Rattle.syntax.specs.declared.types.Term.{Term};

use crate::counts::Counts;
use crate::types::{Atom, Literal, Term};

fn is_lawful_term(counts: Counts, t: Term) -> bool
    ensures { result ≡ lawful_term counts t }
{
    match t {
        Term::Name(a) => a < counts.names(),
        Term::Var(v) => v < 4,
    }
}

fn is_ground_term(counts: Counts, t: Term) -> bool
    ensures { result ≡ ground_term counts t }
{
    match t {
        Term::Name(a) => a < counts.names(),
        Term::Var(_) => false,
    }
}

// Whether the symbol lies below its count, and each term fits.
fn is_atom_of<F: Fn(Term) -> bool>(counts: Counts, atom: Atom, fits: F) -> bool
    requires { F.IsAlwaysCallable fits }
    ensures { (q : Term → Bool) → ((t : Term) (r : Bool) → F.post fits t r → r ≡ q t) → result ≡ atom_by counts q atom }
{
    match atom {
        Atom::Same(t, u) => fits(t) && fits(u),
        Atom::Prop(p, t) => p < counts.properties() && fits(t),
        Atom::Rel(r, t, u) => r < counts.relations() && fits(t) && fits(u),
    }
}

// Whether a literal is lawful.
pub fn is_lawful_literal(counts: Counts, l: Literal) -> bool
    ensures { Decides result (LawfulLiteral counts l) }
{
    is_atom_of(counts, l.atom, |t| is_lawful_term(counts, t))
}

// Whether an atom is lawful and has no variable.
pub(crate) fn is_ground_atom(counts: Counts, atom: Atom) -> bool
    ensures { Decides result (AtomBy counts (GroundTerm counts) atom) }
{
    is_atom_of(counts, atom, |t| is_ground_term(counts, t))
}

// Whether a literal is lawful and has no variable.
pub fn is_ground_literal(counts: Counts, l: Literal) -> bool
    ensures { Decides result (GroundLiteral counts l) }
{
    is_ground_atom(counts, l.atom)
}

// Whether the literals are a lawful clause.
pub fn is_lawful_clause(counts: Counts, literals: &[Literal]) -> bool
    ensures { Decides result (Lawful counts literals.now) }
{
    (1..=8).contains(&literals.len()) && literals.iter().all(|l| is_lawful_literal(counts, *l))
}
