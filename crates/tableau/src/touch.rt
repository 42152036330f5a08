// Tells what a mark forces in the instances that it denies a literal of.
ghost use Rattle.std.specs.Prelude.{◌<◌, length};
ghost use Rattle.tableau.specs.Spans.{InSpans};
ghost use Rattle.tableau.specs.Views.{Ready, Passes};

use crate::spans::{bind, nth_in, ranges_in};
use crate::types::{Hopeless, Search, Span};
use books::book::Book;
use syntax::types::{Ground, Literal};
use tables::table::BranchTable;

impl<'b, 't, 's, 'c, 'm, 'n, B: Book, T: BranchTable> Search<'b, 't, 's, 'c, 'm, 'n, B, T> {
    // In the instances of clause i under the assignments of the spans.
    fn touch_spans(&mut self, i: usize, spans: [Span; 4]) -> Result<bool, Hopeless>
        requires ready { Ready B.Book T.BranchTable self.old }
        requires inside { i < length (B.clauses self.old.book.now) }
        requires spans { InSpans (B.counts self.old.book.now) spans }
        ensures { Passes B.Book T.BranchTable self.old self.new result }
    {
        let counts = self.book.counts();
        let ranges = ranges_in(self.book, i, spans);
        let mut moved = false;
        for k in 0..ranges.size() {
            moved |= self.press(i, nth_in(counts, spans, ranges, k))?;
        }
        Ok(moved)
    }

    // In the instances of clause i where the mark of the ground atom denies the literal l.
    fn touch_literal(
        &mut self,
        i: usize,
        l: Literal,
        g: Ground,
        sign: bool,
    ) -> Result<bool, Hopeless>
        requires ready { Ready B.Book T.BranchTable self.old }
        requires inside { i < length (B.clauses self.old.book.now) }
        ensures { Passes B.Book T.BranchTable self.old self.new result }
    {
        if l.sign == sign {
            return Ok(false);
        }
        match bind(self.book.counts(), l.atom, g) {
            Some(spans) => self.touch_spans(i, spans),
            None => Ok(false),
        }
    }

    // In the instances of clause i.
    fn touch_clause(&mut self, i: usize, g: Ground, sign: bool) -> Result<bool, Hopeless>
        requires ready { Ready B.Book T.BranchTable self.old }
        requires inside { i < length (B.clauses self.old.book.now) }
        ensures { Passes B.Book T.BranchTable self.old self.new result }
    {
        let mut moved = false;
        let book = self.book;
        for l in book.literals_of(i) {
            moved |= self.touch_literal(i, l, g, sign)?;
        }
        Ok(moved)
    }

    // In the instances of every clause.
    pub(crate) fn touch(&mut self, g: Ground, sign: bool) -> Result<bool, Hopeless>
        requires { Ready B.Book T.BranchTable self.old }
        ensures { Passes B.Book T.BranchTable self.old self.new result }
    {
        let mut moved = false;
        for i in 0..self.book.len() {
            moved |= self.touch_clause(i, g, sign)?;
        }
        Ok(moved)
    }
}
