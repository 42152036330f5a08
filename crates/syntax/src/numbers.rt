// The numbers of the ground atoms.
ghost use Rattle.std.specs.Prelude.{◌≡◌, ℕ, ◌+◌, ◌<◌, ◌≤◌};
ghost use Rattle.syntax.specs.Numbers.{atoms, atom_of, Grounded, Numbered, Found, Few, BelowAll, Apart, Onto};

use crate::counts::Counts;
use crate::lawful::is_ground_atom;
use crate::types::{Atom, Ground, HasVariable, Term};

// How many ground atoms there are: A.
pub fn atom_count(counts: Counts) -> usize
    ensures count { result ≡ atoms counts }
    ensures few { result ≤ 10240 }
{
    let n = counts.names() as usize;
    n * n + counts.properties() as usize * n + counts.relations() as usize * n * n
}

// The atom as one over names alone; an error where it has a variable.
impl TryFrom<Atom> for Ground {
    type Error = HasVariable;

    ghost try_from_gives = { Grounded };

    fn try_from(atom: Atom) -> Result<Ground, HasVariable> {
        match atom {
            Atom::Same(Term::Name(a), Term::Name(b)) => Ok(Ground::Same(a, b)),
            Atom::Prop(p, Term::Name(a)) => Ok(Ground::Prop(p, a)),
            Atom::Rel(r, Term::Name(a), Term::Name(b)) => Ok(Ground::Rel(r, a, b)),
            _ => Err(HasVariable),
        }
    }
}

// The atom as one that may have variables.
impl From<Ground> for Atom {
    ghost from_gives = { λ g a. a ≡ atom_of g };

    fn from(g: Ground) -> Atom {
        match g {
            Ground::Same(a, b) => Atom::Same(Term::Name(a), Term::Name(b)),
            Ground::Prop(p, a) => Atom::Prop(p, Term::Name(a)),
            Ground::Rel(r, a, b) => Atom::Rel(r, Term::Name(a), Term::Name(b)),
        }
    }
}

// The number of a ground atom; nothing where the book has no such atom.
pub fn atom_number(counts: Counts, g: Ground) -> Option<usize>
    ensures { Numbered counts g result }
{
    if !is_ground_atom(counts, Atom::from(g)) {
        return None;
    }
    let n = counts.names() as usize;
    let m = counts.properties() as usize;
    Some(match g {
        Ground::Same(a, b) => a as usize * n + b as usize,
        Ground::Prop(p, a) => n * n + p as usize * n + a as usize,
        Ground::Rel(r, a, b) => n * n + m * n + (r as usize * n + a as usize) * n + b as usize,
    })
}

// The ground atom with the number k; nothing where k is past the last.
pub fn atom_at(counts: Counts, k: usize) -> Option<Ground>
    ensures { Found counts k result }
{
    if k >= atom_count(counts) {
        return None;
    }
    let n = counts.names() as usize;
    let row = k / n;
    let last = (k % n) as u8;
    let m = counts.properties() as usize;
    if row < n {
        return Some(Ground::Same(row as u8, last));
    }
    if row < n + m {
        return Some(Ground::Prop((row - n) as u8, last));
    }
    let pair = row - n - m;
    Some(Ground::Rel((pair / n) as u8, (pair % n) as u8, last))
}

// The laws of the numbering, which stand for its formula in all later code.
pub fn numbering_laws() -> ()
    ensures few { Few }
    ensures below { BelowAll }
    ensures apart { Apart }
    ensures onto { Onto }
{}
