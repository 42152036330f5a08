// Tells what the instances force, one clause after the other.
ghost use Rattle.std.specs.Prelude.{◌<◌, length};
ghost use Rattle.syntax.specs.Numbers.{atoms};
ghost use Rattle.semantics.specs.Meaning.{Assigns};
ghost use Rattle.instances.specs.Assignments.{names_of};
ghost use Rattle.tableau.specs.Signs.{OpenIn};
ghost use Rattle.tableau.specs.Views.{Ready, Follows, Passes, Tries};

use crate::types::{Hopeless, Search, Status};
use books::book::Book;
use instances::ranges::Ranges;
use syntax::types::SignedAtom;
use tables::table::BranchTable;

impl<'b, 't, 's, 'c, 'm, 'n, B: Book, T: BranchTable> Search<'b, 't, 's, 'c, 'm, 'n, B, T> {
    // Tells a signed atom that follows from the branch. Beside `branch`, which chooses one: the two need and leave
    // different things.
    pub(crate) fn enforce(&mut self, l: SignedAtom) -> Result<(), Hopeless>
        requires ready { Ready B.Book T.BranchTable self.old }
        requires below { l.atom < atoms (B.counts self.old.book.now) }
        requires lies { OpenIn (T.marks self.old.table.now) l }
        requires follows { Follows B.Book T.BranchTable self.old l }
        ensures { Tries B.Book T.BranchTable self.old self.new result }
    {
        self.put(l);
        self.classes = self.classes_with(l)?;
        Ok(())
    }

    // Tells what one instance forces: whether it forces anything.
    pub(crate) fn press(&mut self, i: usize, names: [u8; 4]) -> Result<bool, Hopeless>
        requires ready { Ready B.Book T.BranchTable self.old }
        requires inside { i < length (B.clauses self.old.book.now) }
        requires assigns { Assigns (B.counts self.old.book.now) (names_of names) }
        ensures { Passes B.Book T.BranchTable self.old self.new result }
    {
        match self.evaluate(i, names) {
            Status::Fulfilled | Status::Loose(_) => Ok(false),
            Status::Broken => Err(Hopeless),
            Status::Forced(l) => {
                self.enforce(l)?;
                Ok(true)
            }
        }
    }

    // Tells what the instances of clause i force.
    fn sweep_clause(&mut self, i: usize) -> Result<bool, Hopeless>
        requires ready { Ready B.Book T.BranchTable self.old }
        requires inside { i < length (B.clauses self.old.book.now) }
        ensures { Passes B.Book T.BranchTable self.old self.new result }
    {
        let ranges = Ranges::of(self.book, i);
        let mut moved = false;
        for k in 0..ranges.size() {
            moved |= self.press(i, ranges.nth(k))?;
        }
        Ok(moved)
    }

    // Tells what the clauses of one literal force: where nothing stands, no other forces anything.
    pub(crate) fn sweep(&mut self) -> Result<bool, Hopeless>
        requires { Ready B.Book T.BranchTable self.old }
        ensures { Passes B.Book T.BranchTable self.old self.new result }
    {
        let mut moved = false;
        for i in 0..self.book.len() {
            if self.book.literals(i) != Some(1) {
                continue;
            }
            moved |= self.sweep_clause(i)?;
        }
        Ok(moved)
    }
}
