// The calls of the working book.
ghost use Rattle.std.specs.Prelude.{◌≡◌, []};
ghost use Rattle.syntax.specs.Limits.{Are};
ghost use Rattle.syntax.specs.Refusals.{UnlessRefused};
ghost use Rattle.books.specs.Working.{standing_of, clauses_of, working_lawful, working_few, Opened, Entered, Struck};

use crate::book::Book;
use crate::working::WorkingBook;
use arrayvec::ArrayVec;
use std::array;
use syntax::counts::Counts;
use syntax::lawful::is_lawful_clause;
use syntax::types::{Literal, Refusal};

impl WorkingBook {
    // An empty book with the counts 1, 0, 0.
    pub fn new() -> WorkingBook
        ensures counts { Are 1 0 0 result.counts }
        ensures standing { standing_of result ≡ [] }
    {
        WorkingBook {
            counts: Counts::new(1, 0, 0).unwrap(),
            clauses: array::from_fn(|_| ArrayVec::new()),
            len: 0,
        }
    }

    // Makes the book empty, with these counts; refused as 1 where they lie outside the limits.
    pub fn open(&mut self, names: usize, properties: usize, relations: usize) -> Result<(), Refusal>
        ensures done { Opened self.old.counts (standing_of self.old) names properties relations result self.new.counts (standing_of self.new) }
        ensures kept { UnlessRefused self.old self.new result }
    {
        self.counts = Counts::new(names, properties, relations)?;
        self.len = 0;
        Ok(())
    }

    // Adds a clause at the end; refused as 2 where it is unlawful, then as 3 where 256 stand.
    pub fn enter(&mut self, literals: &[Literal]) -> Result<(), Refusal>
        ensures counts { self.new.counts ≡ self.old.counts }
        ensures done { Entered self.old.counts (standing_of self.old) literals.now result (standing_of self.new) }
        ensures kept { UnlessRefused self.old self.new result }
    {
        if !is_lawful_clause(self.counts, literals) {
            return Err(Refusal::Unlawful);
        }
        if self.len == 256 {
            return Err(Refusal::BookFull);
        }
        self.clauses[self.len] = ArrayVec::try_from(literals).unwrap();
        self.len += 1;
        Ok(())
    }

    // Keeps the first k clauses; refused as 4 where fewer stand.
    pub fn strike(&mut self, k: usize) -> Result<(), Refusal>
        ensures counts { self.new.counts ≡ self.old.counts }
        ensures done { Struck (standing_of self.old) k result (standing_of self.new) }
        ensures kept { UnlessRefused self.old self.new result }
    {
        if k > self.len {
            return Err(Refusal::StrikeAbove);
        }
        self.len = k;
        Ok(())
    }
}

impl Book for WorkingBook {
    ghost counts = { λ b. b.counts };

    ghost clauses = { clauses_of };

    ghost lawful = { working_lawful };

    ghost few = { working_few };

    fn counts(&self) -> Counts {
        self.counts
    }

    fn len(&self) -> usize {
        self.len
    }

    fn literals(&self, i: usize) -> Option<usize> {
        Some(self.clauses[..self.len].get(i)?.len())
    }

    fn literal(&self, i: usize, j: usize) -> Option<Literal> {
        self.clauses[..self.len].get(i)?.get(j).copied()
    }
}
