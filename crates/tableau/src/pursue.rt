// Follows the trail: tells what each atom on it forces.
ghost use Rattle.tableau.specs.Views.{Ready, Passes};

use crate::types::{Hints, Hopeless, Search};
use books::book::Book;
use syntax::numbers::atom_at;
use tables::table::BranchTable;

impl<'b, 't, 's, 'c, 'm, 'n, B: Book, T: BranchTable> Search<'b, 't, 's, 'c, 'm, 'n, B, T> {
    // Tells what an atom that stands forces.
    fn follow(&mut self, atom: u16) -> Result<bool, Hopeless>
        requires { Ready B.Book T.BranchTable self.old }
        ensures { Passes B.Book T.BranchTable self.old self.new result }
    {
        let Some(g) = atom_at(self.book.counts(), atom as usize) else {
            return Ok(false);
        };
        match self.sign_at(atom as usize) {
            Some(sign) => self.touch(g, sign),
            None => Ok(false),
        }
    }

    // Tells what the atoms on the trail from a height on force, and what those told force, and so on.
    // A twin of `spread_from` but for the step: the check covers no closure that takes `&mut Self`, for its many lifetimes.
    fn pursue(&mut self, from: usize) -> Result<bool, Hopeless>
        requires { Ready B.Book T.BranchTable self.old }
        ensures { Passes B.Book T.BranchTable self.old self.new result }
    {
        let mut moved = false;
        let mut at = from;
        while let Some(atom) = self.trail.at(at) {
            moved |= self.follow(atom)?;
            at += 1;
        }
        Ok(moved)
    }

    // Tells what is forced, from where the hints say.
    pub(crate) fn propagate(&mut self, hints: &mut Hints) -> Result<bool, Hopeless>
        requires { Ready B.Book T.BranchTable self.old }
        ensures { Passes B.Book T.BranchTable self.old self.new result }
    {
        if !hints.swept {
            hints.swept = true;
            return self.sweep();
        }
        let moved = self.pursue(hints.pursued)?;
        hints.pursued = self.trail.height();
        if moved {
            return Ok(true);
        }
        self.spread(hints)
    }
}
