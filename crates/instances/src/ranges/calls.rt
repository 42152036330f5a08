// The assignments of a clause's own variables, in order.
ghost use Rattle.std.specs.Prelude.{◌≡◌, ℕ, ◌+◌, ◌%◌, ◌≤◌, [], slice_index_or};
ghost use Rattle.semantics.specs.Checks.{term_use, atom_use, uses as uses_by};
ghost use Rattle.instances.specs.Assignments.{range as range_by, RunsThrough, Capped, size as size_by, next_names, nth_assignment, NthNames, EachAssigns, EachReached, EachLater};

use crate::ranges::Ranges;
use books::book::Book;
use std::array;
use syntax::counts::Counts;
use syntax::types::{Atom, Literal, Term};

fn term_uses(v: u8, term: Term) -> bool
    ensures { result ≡ term_use v term }
{
    match term {
        Term::Name(_) => false,
        Term::Var(u) => u == v,
    }
}

fn atom_uses(v: u8, atom: Atom) -> bool
    ensures { result ≡ atom_use v atom }
{
    match atom {
        Atom::Same(t, u) | Atom::Rel(_, t, u) => term_uses(v, t) || term_uses(v, u),
        Atom::Prop(_, t) => term_uses(v, t),
    }
}

// Whether clause i uses the variable.
pub fn uses<B: Book>(book: &B, i: usize, v: u8) -> bool
    ensures { result ≡ uses_by v (slice_index_or (B.clauses book.now) i []) }
{
    book.literals_of(i).any(|l| atom_uses(v, l.atom))
}

// How many names a variable of clause i runs through.
fn range<B: Book>(book: &B, i: usize, v: u8) -> u8
    ensures { result ≡ range_by (B.counts book.now) (slice_index_or (B.clauses book.now) i []) v }
{
    if uses(book, i, v) {
        book.counts().names()
    } else {
        1
    }
}

// Whether a clause of these literals uses the variable.
fn uses_in(literals: &[Literal], v: u8) -> bool
    ensures { result ≡ uses_by v literals.now }
{
    literals.iter().any(|l| atom_uses(v, l.atom))
}

// k modulo n, with no division where k is lower already.
fn wrapped(k: usize, n: usize) -> usize
    requires { 1 ≤ n }
    ensures { result ≡ k % n }
{
    if k < n { k } else { k % n }
}

impl Ranges {
    // The ranges of the variables of clause i: a variable that it uses runs through all names, any other
    // through name 0 alone.
    pub fn of<B: Book>(book: &B, i: usize) -> Ranges
        ensures { RunsThrough (B.counts book.now) (slice_index_or (B.clauses book.now) i []) result }
    {
        Ranges {
            most: [0, 1, 2, 3].map(|v| range(book, i, v)),
        }
    }

    // The same of a clause of these literals.
    pub fn of_literals(counts: Counts, literals: &[Literal]) -> Ranges
        ensures { RunsThrough counts literals.now result }
    {
        Ranges {
            most: [0, 1, 2, 3].map(|v| if uses_in(literals, v) {
                counts.names()
            } else {
                1
            }),
        }
    }

    // These, but each variable v through `most[v]` names at most, and through 1 at least.
    pub fn capped(self, most: [u8; 4]) -> Ranges
        ensures { Capped self most result }
    {
        Ranges {
            most: array::from_fn(|v| self.most[v].min(most[v]).max(1)),
        }
    }

    // How many assignments there are.
    pub fn size(self) -> usize
        ensures size { result ≡ size_by self }
        ensures few { result ≤ 1048576 }
    {
        let [x, y, z, w] = self.most;
        x as usize * y as usize * z as usize * w as usize
    }

    // The k-th of them, variable 3 fastest; past the last they begin anew.
    pub fn nth(self, k: usize) -> [u8; 4]
        ensures { result ≡ nth_assignment self k }
    {
        let [x, y, z, w] = self.most.map(|n| n as usize);
        [
            wrapped(k / w / z / y, x) as u8,
            (k / w / z % y) as u8,
            (k / w % z) as u8,
            (k % w) as u8,
        ]
    }

    // The names after these; after those of the k-th, those of the next. It spares a walk the divisions of `nth`.
    pub fn after(self, names: [u8; 4]) -> [u8; 4]
        ensures is { result ≡ next_names self names }
        ensures next { (k : ℕ) → names ≡ nth_assignment self k → result ≡ nth_assignment self (k + 1) }
    {
        let [x, y, z, w] = names;
        if w < self.most[3] - 1 {
            return [x, y, z, w + 1];
        }
        if z < self.most[2] - 1 {
            return [x, y, z + 1, 0];
        }
        if y < self.most[1] - 1 {
            return [x, y + 1, 0, 0];
        }
        if x < self.most[0] - 1 {
            return [x + 1, 0, 0, 0];
        }
        [0; 4]
    }

    // The k-th of them; nothing past the last.
    pub fn names(self, k: usize) -> Option<[u8; 4]>
        ensures { NthNames self k result }
    {
        (k < self.size()).then_some(self.nth(k))
    }
}

// The assignments give names below N, each assignment of the clause's own variables is one of them, and they come in
// order.
pub fn assignment_laws() -> ()
    ensures assigns { EachAssigns }
    ensures reached { EachReached }
    ensures later { EachLater }
{}
