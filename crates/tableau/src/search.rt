// The search: turn after turn, until every instance is fulfilled or no choice is left.
ghost use Rattle.std.specs.Prelude.{◌≡◌, ◌<◌, ◌≤◌, [], length};
ghost use Rattle.syntax.specs.Numbers.{atoms};
ghost use Rattle.semantics.specs.Branch.{ClassTable as Classes};
ghost use Rattle.classes.specs.Leaders.{leader_of};
ghost use Rattle.tables.specs.Items.{items, slots_of};
ghost use Rattle.tableau.specs.Judged.{Searched};
ghost use Rattle.tableau.specs.Signs.{Clear, OpenIn};
ghost use Rattle.tableau.specs.Views.{Same, Ready, Lost, Tries, Turns, Retreats, Decides};

use crate::types::{Hints, Hopeless, Search};
use books::book::Book;
use classes::table::ClassTable;
use syntax::types::SignedAtom;
use tables::stack::{Choice, Stack};
use tables::table::BranchTable;

impl<'b, 't, 's, 'c, 'm, 'n, B: Book, T: BranchTable> Search<'b, 't, 's, 'c, 'm, 'n, B, T> {
    // Chooses a signed atom.
    fn branch(&mut self, l: SignedAtom) -> Result<(), Hopeless>
        requires ready { Ready B.Book T.BranchTable self.old }
        requires below { l.atom < atoms (B.counts self.old.book.now) }
        requires lies { OpenIn (T.marks self.old.table.now) l }
        ensures { Tries B.Book T.BranchTable self.old self.new result }
    {
        self.choose(l);
        self.classes = self.classes_with(l)?;
        Ok(())
    }

    // Takes choices back until one's opposite does not clash: whether there was such a choice.
    fn backtrack(&mut self) -> bool
        requires { Lost B.Book T.BranchTable self.old }
        ensures { Retreats B.Book T.BranchTable self.old self.new result }
    {
        while self.flip() {
            if let Ok(classes) = self.read_classes() {
                self.classes = classes;
                return true;
            }
        }
        false
    }

    // The same. The trail is then to be followed from its top, and each clause to be looked at.
    fn retreat(&mut self, hints: &mut Hints) -> bool
        requires { Lost B.Book T.BranchTable self.old }
        ensures { Retreats B.Book T.BranchTable self.old self.new result }
    {
        let left = self.backtrack();
        let top = self.trail.height().saturating_sub(1);
        hints.pursued = top;
        hints.spread = hints.spread.min(top);
        hints.surveyed = 0;
        hints.instance = 0;
        left
    }

    // One turn: tells what is forced; where nothing is, makes a choice, unless every instance is fulfilled.
    fn turn(&mut self, hints: &mut Hints) -> Result<bool, Hopeless>
        requires { Ready B.Book T.BranchTable self.old }
        ensures { Turns B.Book T.BranchTable self.old self.new result }
    {
        if self.propagate(hints)? {
            return Ok(true);
        }
        match self.survey(hints)? {
            Some(l) => {
                self.branch(l)?;
                Ok(true)
            }
            None => Ok(false),
        }
    }

    // Whether there is a model.
    pub(crate) fn decide(&mut self) -> bool
        requires { Ready B.Book T.BranchTable self.old }
        ensures decided { Decides B.Book T.BranchTable self.old self.new result }
        ensures same { Same self.old self.new }
    {
        let mut hints = Hints::default();
        loop {
            match self.turn(&mut hints) {
                Ok(true) => {}
                Ok(false) => return true,
                Err(Hopeless) => if !self.retreat(&mut hints) {
                    return false;
                },
            }
        }
    }
}

// Looks for a branch that fulfils the book, over a table where nothing stands and stacks that are empty: its class table.
pub(crate) fn search<B: Book, T: BranchTable>(
    book: &B,
    table: &mut T,
    trail: &mut Stack<'_, u16>,
    choices: &mut Stack<'_, Choice>,
    classes: ClassTable,
) -> Option<ClassTable>
    requires clear { Clear (T.marks table.old) }
    requires reach { atoms (B.counts book.now) ≤ length (T.marks table.old) }
    requires room { atoms (B.counts book.now) ≤ T.room table.old }
    requires trail { (atoms (B.counts book.now) ≤ slots_of trail.old) × (items trail.old ≡ []) }
    requires choices { (atoms (B.counts book.now) ≤ slots_of choices.old) × (items choices.old ≡ []) }
    requires fits { Classes (B.counts book.now) (T.marks table.old) (leader_of classes) }
    ensures searched { Searched (B.counts book.now) (B.clauses book.now) (T.marks table.old) (T.marks table.new) result }
    ensures room { T.room table.new ≡ T.room table.old }
    ensures loan { T.loan table.new ≡ T.loan table.old }
{
    let mut search = Search {
        book,
        table,
        trail,
        choices,
        classes,
    };
    if search.decide() {
        Some(search.classes)
    } else {
        None
    }
}
