// Terms, atoms and literals under an assignment.
ghost use Rattle.std.specs.Prelude.{◌≡◌};
ghost use Rattle.semantics.specs.Meaning.{name_at, ground_of};
ghost use Rattle.instances.specs.Assignments.{names_of, denial as denial_by};

use syntax::types::{Atom, Ground, Literal, Term};

// The name that a term stands for. There is no variable past 3; one that is asked for is read as 3.
pub fn name_of(names: [u8; 4], term: Term) -> u8
    ensures { result ≡ name_at (names_of names) term }
{
    match term {
        Term::Name(a) => a,
        Term::Var(v) => names[v.min(3) as usize],
    }
}

// The instance of an atom.
pub fn instance(names: [u8; 4], atom: Atom) -> Ground
    ensures { result ≡ ground_of (names_of names) atom }
{
    match atom {
        Atom::Same(t, u) => Ground::Same(name_of(names, t), name_of(names, u)),
        Atom::Prop(p, t) => Ground::Prop(p, name_of(names, t)),
        Atom::Rel(r, t, u) => Ground::Rel(r, name_of(names, t), name_of(names, u)),
    }
}

// The literal's instance, denied.
pub fn denial(names: [u8; 4], l: Literal) -> Literal
    ensures { result ≡ denial_by (names_of names) l }
{
    Literal {
        sign: !l.sign,
        atom: Atom::from(instance(names, l.atom)),
    }
}
