// What a ground atom binds the variables of an atom to, and the assignments left.
ghost use Rattle.std.specs.Prelude.{IfSome};
ghost use Rattle.semantics.specs.Meaning.{Assigns};
ghost use Rattle.instances.specs.Assignments.{names_of};
ghost use Rattle.tableau.specs.Spans.{InSpan, InSpans, Runs};

use crate::types::Span;
use books::book::Book;
use instances::ranges::Ranges;
use syntax::counts::Counts;
use syntax::types::{Atom, Ground, Term};

// Binds one variable to a name, if it may stand for it.
fn bind_variable(counts: Counts, span: Span, name: u8) -> Option<Span>
    requires { InSpan counts span }
    ensures { IfSome result (InSpan counts) }
{
    if span.first <= name && name - span.first < span.count {
        Some(Span {
            first: name,
            count: 1,
        })
    } else {
        None
    }
}

// Binds a term to a name: a name only to itself, and a variable that is bound only to the same name again. There is no
// variable past 3; one that is asked for is read as 3.
fn bind_term(counts: Counts, spans: [Span; 4], term: Term, name: u8) -> Option<[Span; 4]>
    requires { InSpans counts spans }
    ensures { IfSome result (InSpans counts) }
{
    let mut bound = spans;
    match term {
        Term::Name(a) => if a != name {
            return None;
        },
        Term::Var(v) => {
            let v = v.min(3) as usize;
            bound[v] = bind_variable(counts, spans[v], name)?;
        }
    }
    Some(bound)
}

// Every variable may stand for every name.
fn all_names(counts: Counts) -> [Span; 4]
    ensures { InSpans counts result }
{
    let all = Span {
        first: 0,
        count: counts.names(),
    };
    [all; 4]
}

fn bind_two(counts: Counts, t: Term, a: u8, u: Term, b: u8) -> Option<[Span; 4]>
    ensures { IfSome result (InSpans counts) }
{
    let spans = bind_term(counts, all_names(counts), t, a)?;
    bind_term(counts, spans, u, b)
}

// Binds the variables of an atom so that the ground atom is its instance; nothing where it is none.
pub(crate) fn bind(counts: Counts, atom: Atom, g: Ground) -> Option<[Span; 4]>
    ensures { IfSome result (InSpans counts) }
{
    match (atom, g) {
        (Atom::Same(t, u), Ground::Same(a, b)) => bind_two(counts, t, a, u, b),
        (Atom::Prop(p, t), Ground::Prop(q, a)) => if p == q {
            bind_term(counts, all_names(counts), t, a)
        } else {
            None
        },
        (Atom::Rel(r, t, u), Ground::Rel(s, a, b)) => if r == s {
            bind_two(counts, t, a, u, b)
        } else {
            None
        },
        _ => None,
    }
}

// How many names each variable of clause i still runs through.
pub(crate) fn ranges_in<B: Book>(book: &B, i: usize, spans: [Span; 4]) -> Ranges
    requires { InSpans (B.counts book.now) spans }
    ensures { Runs spans result }
{
    Ranges::of(book, i).capped(spans.map(|s| s.count))
}

// The k-th assignment of the variables.
pub(crate) fn nth_in(counts: Counts, spans: [Span; 4], ranges: Ranges, k: usize) -> [u8; 4]
    requires spans { InSpans counts spans }
    requires runs { Runs spans ranges }
    ensures { Assigns counts (names_of result) }
{
    let n = ranges.nth(k);
    [
        spans[0].first + n[0],
        spans[1].first + n[1],
        spans[2].first + n[2],
        spans[3].first + n[3],
    ]
}
