// The moves of the search: a signed atom told, a choice made, a choice taken back.
ghost use Rattle.std.specs.Prelude.{◌≡◌, ◌<◌, length};
ghost use Rattle.tables.specs.Items.{items, slots_of};
ghost use Rattle.tableau.specs.Turns.{Puttable, Put, Chosen};
ghost use Rattle.tableau.specs.Views.{moment, Same, Lost, Flips};

use crate::types::Search;
use books::book::Book;
use syntax::types::SignedAtom;
use tables::stack::Choice;
use tables::table::BranchTable;
use tables::walk::untell_to;

impl<'b, 't, 's, 'c, 'm, 'n, B: Book, T: BranchTable> Search<'b, 't, 's, 'c, 'm, 'n, B, T> {
    // Tells an open atom, and puts it on the trail.
    pub(crate) fn put(&mut self, l: SignedAtom)
        requires { Puttable l (moment T.BranchTable self.old) }
        ensures put { Put l (moment T.BranchTable self.old) (moment T.BranchTable self.new) }
        ensures same { Same self.old self.new }
        ensures classes { self.new.classes ≡ self.old.classes }
    {
        let _ = self.table.tell(l.atom as usize, l.sign);
        let _ = self.trail.push(l.atom);
    }

    // Chooses an open atom with a sign.
    pub(crate) fn choose(&mut self, l: SignedAtom)
        requires put { Puttable l (moment T.BranchTable self.old) }
        requires short { length (items self.old.trail.now) < 65536 }
        requires slot { length (items self.old.choices.now) < slots_of self.old.choices.now }
        ensures chosen { Chosen l (moment T.BranchTable self.old) (moment T.BranchTable self.new) }
        ensures same { Same self.old self.new }
        ensures classes { self.new.classes ≡ self.old.classes }
    {
        let _ = self.choices.push(Choice {
            height: self.trail.height() as u16,
            atom: l.atom,
            sign: l.sign,
        });
        self.put(l);
    }

    // Takes the latest choice back and tells its opposite; with no choice left, takes everything back, and answers that
    // there was none.
    pub(crate) fn flip(&mut self) -> bool
        requires { Lost B.Book T.BranchTable self.old }
        ensures { Flips B.Book T.BranchTable self.old self.new result }
    {
        match self.choices.pop() {
            Some(choice) => {
                untell_to(self.table, self.trail, choice.height as usize);
                let opposite = SignedAtom {
                    atom: choice.atom,
                    sign: !choice.sign,
                };
                self.put(opposite);
                true
            }
            None => {
                untell_to(self.table, self.trail, 0);
                false
            }
        }
    }
}
