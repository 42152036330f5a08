// The classes of a branch, unless it clashes.
ghost use Rattle.std.specs.Prelude.{◌≡◌, false};
ghost use Rattle.classes.specs.Leaders.{leader_of, JoinsNone};
ghost use Rattle.tableau.specs.Views.{ClassesRead, Told};

use crate::types::{Hopeless, Search};
use books::book::Book;
use classes::classed::Classed;
use classes::table::ClassTable;
use syntax::numbers::atom_at;
use syntax::types::{Ground, SignedAtom};
use tables::table::BranchTable;

// Whether telling the atom with the sign may join two classes.
fn joins(classes: &ClassTable, g: Ground, sign: bool) -> bool
    ensures { result ≡ false → JoinsNone (leader_of classes.now) g sign }
{
    match g {
        Ground::Same(a, b) => sign && classes.leader(a) != classes.leader(b),
        Ground::Prop(_, _) => false,
        Ground::Rel(_, _, _) => false,
    }
}

impl<'b, 't, 's, 'c, 'm, 'n, B: Book, T: BranchTable> Search<'b, 't, 's, 'c, 'm, 'n, B, T> {
    // The classes of the branch, read anew.
    pub(crate) fn read_classes(&self) -> Result<ClassTable, Hopeless>
        ensures { ClassesRead B.Book T.BranchTable self.now result }
    {
        let counts = self.book.counts();
        let classes = ClassTable::of(counts, self.table);
        let branch = Classed {
            counts,
            table: self.table,
            classes: &classes,
        };
        if branch.clashes() {
            return Err(Hopeless);
        }
        Ok(classes)
    }

    // The same after one atom was told on a branch that its classes fit and that did not clash.
    pub(crate) fn classes_with(&self, l: SignedAtom) -> Result<ClassTable, Hopeless>
        requires { Told B.Book T.BranchTable self.now l }
        ensures { ClassesRead B.Book T.BranchTable self.now result }
    {
        let counts = self.book.counts();
        let Some(g) = atom_at(counts, l.atom as usize) else {
            return self.read_classes();
        };
        if joins(&self.classes, g, l.sign) {
            return self.read_classes();
        }
        let branch = Classed {
            counts,
            table: self.table,
            classes: &self.classes,
        };
        if branch.clashes_at(g, l.sign) {
            return Err(Hopeless);
        }
        Ok(self.classes)
    }
}
