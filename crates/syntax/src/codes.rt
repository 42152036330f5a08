// A literal as five bytes.
ghost use Rattle.std.specs.Prelude.{◌≡◌};
ghost use Rattle.syntax.specs.Codes.{term_of, atom_read, term_code, Decoded, Encoded, Round, Back};
ghost use Rattle.syntax.specs.Lawful.{LawfulTerm};

use crate::counts::Counts;
use crate::lawful::is_lawful_literal;
use crate::types::{Atom, Literal, Term};

fn decode_term(counts: Counts, b: u8) -> Option<Term>
    ensures { result ≡ term_of counts b }
{
    match b {
        0..=31 if b < counts.names() => Some(Term::Name(b)),
        32..=35 => Some(Term::Var(b - 32)),
        _ => None,
    }
}

// The kinds stay bytes: an enum of them would be the variants of Atom once more.
fn decode_atom(counts: Counts, kind: u8, symbol: u8, first: u8, second: u8) -> Option<Atom>
    ensures { result ≡ atom_read counts kind symbol first second }
{
    match kind {
        0 if symbol == 0 => Some(Atom::Same(
            decode_term(counts, first)?,
            decode_term(counts, second)?,
        )),
        1 if symbol < counts.properties() && second == 0 => {
            Some(Atom::Prop(symbol, decode_term(counts, first)?))
        }
        2 if symbol < counts.relations() => {
            Some(Atom::Rel(
                symbol,
                decode_term(counts, first)?,
                decode_term(counts, second)?,
            ))
        }
        _ => None,
    }
}

// The lawful literal that has these bytes; nothing where none has.
pub fn decode_literal(counts: Counts, bytes: &[u8]) -> Option<Literal>
    ensures { Decoded counts bytes.now result }
{
    let &[sign, kind, symbol, first, second] = bytes else {
        return None;
    };
    // A match, since the library converts no byte to a bool.
    let sign = match sign {
        0 => false,
        1 => true,
        _ => return None,
    };
    let atom = decode_atom(counts, kind, symbol, first, second)?;
    Some(Literal { sign, atom })
}

fn encode_term(counts: Counts, t: Term) -> u8
    requires { LawfulTerm counts t }
    ensures { result ≡ term_code t }
{
    match t {
        Term::Name(a) => a,
        Term::Var(v) => v + 32,
    }
}

// The bytes of a lawful literal; nothing for any other.
pub fn encode_literal(counts: Counts, l: Literal) -> Option<[u8; 5]>
    ensures { Encoded counts l result }
{
    if !is_lawful_literal(counts, l) {
        return None;
    }
    let sign = u8::from(l.sign);
    Some(match l.atom {
        Atom::Same(t, u) => [sign, 0, 0, encode_term(counts, t), encode_term(counts, u)],
        Atom::Prop(p, t) => [sign, 1, p, encode_term(counts, t), 0],
        Atom::Rel(r, t, u) => [sign, 2, r, encode_term(counts, t), encode_term(counts, u)],
    })
}

// Decoding and encoding are inverse.
pub fn code_laws() -> ()
    ensures round { Round }
    ensures back { Back }
{}
