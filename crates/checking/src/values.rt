// Whether literals and clauses hold under an assignment, in the interpretation of the bytes.
ghost use Rattle.std.specs.Prelude.{◌≡◌, ◌<◌, [], length, Decides, slice_index_or};
ghost use Rattle.syntax.specs.Lawful.{Lawful};
ghost use Rattle.semantics.specs.Meaning.{Assigns, SomeHolds};
ghost use Rattle.instances.specs.Assignments.{names_of};
ghost use Rattle.checking.specs.Values.{InEach, Told, ClauseFinding};

use crate::candidate::Candidate;
use arrayvec::ArrayVec;
use books::book::Book;
use instances::literals::instance;
use instances::ranges::Ranges;
use syntax::types::Literal;

// The literals of clause i, read once: a book may be slow to ask.
fn read<B: Book>(book: &B, i: usize) -> ArrayVec<Literal, 8>
    ensures { result.items ≡ slice_index_or (B.clauses book.now) i [] }
{
    let mut clause = ArrayVec::new();
    for l in book.literals_of(i) {
        clause.push(l);
    }
    clause
}

impl<'a> Candidate<'a> {
    // Whether a literal holds.
    fn literal_holds(&self, names: [u8; 4], l: Literal) -> bool
        ensures { Told self.now.counts self.now.bytes.now (names_of names) l result }
    {
        (self.byte_of(instance(names, l.atom)) == 1) == l.sign
    }

    // Whether some literal of a clause holds.
    fn clause_holds(&self, clause: &[Literal], names: [u8; 4]) -> bool
        requires { Lawful self.now.counts clause.now }
        ensures { Assigns self.now.counts (names_of names) → InEach self.now.counts self.now.bytes.now (λ I. Decides result (SomeHolds I (names_of names) clause.now)) }
    {
        clause.iter().any(|l| self.literal_holds(names, *l))
    }

    // The first failing assignment of a clause; nothing where it is satisfied.
    fn first_failing(&self, clause: &[Literal]) -> Option<[u8; 4]>
        requires { Lawful self.now.counts clause.now }
        ensures { InEach self.now.counts self.now.bytes.now (λ I. ClauseFinding self.now.counts I clause.now result) }
    {
        let ranges = Ranges::of_literals(self.counts, clause);
        let mut names = ranges.nth(0);
        for _ in 0..ranges.size() {
            if !self.clause_holds(clause, names) {
                return Some(names);
            }
            let next = ranges.after(names);
            names = next;
        }
        None
    }

    // The same of clause i of a book.
    pub(crate) fn failing_in<B: Book>(&self, book: &B, i: usize) -> Option<[u8; 4]>
        requires counts { self.now.counts ≡ B.counts book.now }
        requires inside { i < length (B.clauses book.now) }
        ensures { InEach self.now.counts self.now.bytes.now (λ I. ClauseFinding self.now.counts I (slice_index_or (B.clauses book.now) i []) result) }
    {
        self.first_failing(&read(book, i))
    }
}
