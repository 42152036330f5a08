// Looks for an instance without a standing literal.
ghost use Rattle.std.specs.Prelude.{◌<◌, ◌≤◌, length};
ghost use Rattle.syntax.specs.Numbers.{atoms};
ghost use Rattle.semantics.specs.Branch.{Fulfilled};
ghost use Rattle.tableau.specs.Scans.{Found, ClauseSurveyed, SurveyedFrom};

use crate::types::{Hints, Hopeless, Search, Status};
use books::book::Book;
use instances::ranges::Ranges;
use syntax::types::SignedAtom;
use tables::table::BranchTable;

impl<'b, 't, 's, 'c, 'm, 'n, B: Book, T: BranchTable> Search<'b, 't, 's, 'c, 'm, 'n, B, T> {
    // An open literal of an instance of clause i without a standing one, from a given instance on. The hint tells where
    // it stopped.
    fn survey_clause(
        &self,
        hints: &mut Hints,
        i: usize,
        first: usize,
    ) -> Result<Option<SignedAtom>, Hopeless>
        requires inside { i < length (B.clauses self.now.book.now) }
        requires reaches { atoms (B.counts self.now.book.now) ≤ length (T.marks self.now.table.now) }
        ensures { Found (ClauseSurveyed (B.counts self.now.book.now) (B.clauses self.now.book.now) (T.marks self.now.table.now) i first) (B.counts self.now.book.now) (B.clauses self.now.book.now) (T.marks self.now.table.now) result }
    {
        let ranges = Ranges::of(self.book, i);
        for k in first..ranges.size() {
            hints.instance = k;
            match self.evaluate(i, ranges.nth(k)) {
                Status::Fulfilled => {}
                Status::Broken => return Err(Hopeless),
                Status::Forced(l) | Status::Loose(l) => return Ok(Some(l)),
            }
        }
        Ok(None)
    }

    // The same among the clauses from a given one on. The hint tells where it stopped.
    fn survey_from(&self, hints: &mut Hints, from: usize) -> Result<Option<SignedAtom>, Hopeless>
        requires { atoms (B.counts self.now.book.now) ≤ length (T.marks self.now.table.now) }
        ensures { Found (SurveyedFrom (B.counts self.now.book.now) (B.clauses self.now.book.now) (T.marks self.now.table.now) from) (B.counts self.now.book.now) (B.clauses self.now.book.now) (T.marks self.now.table.now) result }
    {
        for i in from..self.book.len() {
            hints.surveyed = i;
            let found = self.survey_clause(hints, i, 0)?;
            if found.is_some() {
                return Ok(found);
            }
        }
        Ok(None)
    }

    // The same from where the hints say.
    fn survey_on(&self, hints: &mut Hints) -> Result<Option<SignedAtom>, Hopeless>
        requires { atoms (B.counts self.now.book.now) ≤ length (T.marks self.now.table.now) }
        ensures { Found Unit (B.counts self.now.book.now) (B.clauses self.now.book.now) (T.marks self.now.table.now) result }
    {
        let from = hints.surveyed;
        let first = hints.instance;
        if from >= self.book.len() {
            return Ok(None);
        }
        let found = self.survey_clause(hints, from, first)?;
        if found.is_some() {
            return Ok(found);
        }
        self.survey_from(hints, from + 1)
    }

    // Among all instances; first among those from where the hints say.
    pub(crate) fn survey(&self, hints: &mut Hints) -> Result<Option<SignedAtom>, Hopeless>
        requires { atoms (B.counts self.now.book.now) ≤ length (T.marks self.now.table.now) }
        ensures { Found (Fulfilled (B.counts self.now.book.now) (B.clauses self.now.book.now) (T.marks self.now.table.now)) (B.counts self.now.book.now) (B.clauses self.now.book.now) (T.marks self.now.table.now) result }
    {
        if hints.surveyed > 0 || hints.instance > 0 {
            let found = self.survey_on(hints)?;
            if found.is_some() {
                return Ok(found);
            }
        }
        self.survey_from(hints, 0)
    }
}
