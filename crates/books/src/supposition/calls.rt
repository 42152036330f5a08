// The calls of the supposition.
ghost use Rattle.std.specs.Prelude.{◌≡◌, [], length, filter};
ghost use Rattle.std.specs.List.{slice_get};
ghost use Rattle.syntax.specs.Lawful.{ground_literal};
ghost use Rattle.syntax.specs.Refusals.{UnlessRefused};
ghost use Rattle.books.specs.Suppositions.{own_of, counts_with, clauses_with, with_lawful, with_few, Supposed};

use crate::book::Book;
use crate::supposition::Supposition;
use arrayvec::ArrayVec;
use syntax::counts::Counts;
use syntax::lawful::is_ground_literal;
use syntax::types::{Literal, Refusal};

// How many of the literals are ground and lawful at the counts.
fn counted(counts: Counts, literals: &[Literal]) -> usize
    ensures { result ≡ length (filter (ground_literal counts) literals.now) }
{
    literals
        .iter()
        .filter(|l| is_ground_literal(counts, **l))
        .count()
}

// Of those, the one at k; nothing beyond them.
fn counted_at(counts: Counts, literals: &[Literal], k: usize) -> Option<Literal>
    ensures { result ≡ slice_get (filter (ground_literal counts) literals.now) k }
{
    literals
        .iter()
        .copied()
        .filter(|l| is_ground_literal(counts, *l))
        .nth(k)
}

impl<B: Book> Book for Supposition<B> {
    ghost counts = { counts_with B.Book.counts };

    ghost clauses = { clauses_with B.Book.counts B.Book.clauses };

    ghost lawful = { with_lawful B.Book.counts B.Book.clauses B.Book.lawful };

    ghost few = { with_few B.Book.counts B.Book.clauses B.Book.few };

    fn counts(&self) -> Counts {
        self.below.counts()
    }

    fn len(&self) -> usize {
        let under = self.below.len();
        let own = counted(self.below.counts(), &self.literals);
        under + own.min(65535 - under)
    }

    fn literals(&self, i: usize) -> Option<usize> {
        if i < self.below.len() {
            return self.below.literals(i);
        }
        (i < self.len()).then_some(1)
    }

    fn literal(&self, i: usize, j: usize) -> Option<Literal> {
        let under = self.below.len();
        if i < under {
            return self.below.literal(i, j);
        }
        if i >= 65535 || j > 0 {
            return None;
        }
        counted_at(self.below.counts(), &self.literals, i - under)
    }
}

impl<B: Book> Supposition<B> {
    // A layer with no literal: it means what the book below means.
    pub fn over(below: B) -> Supposition<B>
        ensures below { result.below ≡ below }
        ensures counts { counts_with B.Book.counts result ≡ B.Book.counts below }
        ensures own { own_of result ≡ [] }
        ensures clauses { clauses_with B.Book.counts B.Book.clauses result ≡ B.Book.clauses below }
    {
        Supposition {
            below,
            literals: ArrayVec::new(),
        }
    }

    // Adds a ground literal as a clause at the end; refused as 2 where it has a variable or is unlawful
    // below, then as 10 where 16 are held or 65,535 clauses count in all.
    pub fn suppose(&mut self, l: Literal) -> Result<(), Refusal>
        ensures below { self.new.below ≡ self.old.below }
        ensures counts { counts_with B.Book.counts self.new ≡ counts_with B.Book.counts self.old }
        ensures done { Supposed (counts_with B.Book.counts self.old) (clauses_with B.Book.counts B.Book.clauses self.old) (own_of self.old) l result (clauses_with B.Book.counts B.Book.clauses self.new) (own_of self.new) }
        ensures kept { UnlessRefused self.old self.new result }
    {
        if !is_ground_literal(self.below.counts(), l) {
            return Err(Refusal::Unlawful);
        }
        if self.literals.is_full() || self.len() == 65535 {
            return Err(Refusal::TooMany);
        }
        self.literals.push(l);
        Ok(())
    }
}
