// Tells atoms of names that are linked with those of atoms that stand.
ghost use Rattle.std.specs.Prelude.{◌≡◌, true};
ghost use Rattle.classes.specs.Leaders.{leader_of};
ghost use Rattle.tableau.specs.Variants.{renamed as renamed_by, OneLed};
ghost use Rattle.tableau.specs.Views.{Ready, Passes};

use crate::spans::bind;
use crate::types::{Hints, Hopeless, Search};
use books::book::Book;
use classes::table::ClassTable;
use syntax::numbers::{atom_at, atom_number};
use syntax::types::{Ground, SignedAtom};
use tables::table::BranchTable;

// The atom with other names.
fn renamed(g: Ground, x: u8, y: u8) -> Ground
    ensures { result ≡ renamed_by g x y }
{
    match g {
        Ground::Same(_, _) => Ground::Same(x, y),
        Ground::Prop(p, _) => Ground::Prop(p, x),
        Ground::Rel(r, _, _) => Ground::Rel(r, x, y),
    }
}

// Whether those names have the leaders of its own; where it has one name, the second is to be 0.
fn is_led(classes: &ClassTable, g: Ground, x: u8, y: u8) -> bool
    ensures { result ≡ true → OneLed (leader_of classes.now) g x y }
{
    match g {
        Ground::Same(a, b) | Ground::Rel(_, a, b) => classes.leader(a) == classes.leader(x)
            && classes.leader(b) == classes.leader(y),
        Ground::Prop(_, a) => y == 0 && classes.leader(a) == classes.leader(x),
    }
}

// Whether the atom occurs in an instance of clause i.
fn occurs_in<B: Book>(book: &B, i: usize, g: Ground) -> bool {
    let counts = book.counts();
    book.literals_of(i)
        .any(|l| bind(counts, l.atom, g).is_some())
}

// Whether it occurs in some instance.
fn occurs<B: Book>(book: &B, g: Ground) -> bool {
    (0..book.len()).any(|i| occurs_in(book, i, g))
}

// Whether the name's class has another name.
fn is_linked(classes: &ClassTable, names: u8, a: u8) -> bool {
    (0..names).any(|x| x != a && classes.leader(x) == classes.leader(a))
}

// Whether that is so of a name of the atom.
fn has_linked(classes: &ClassTable, names: u8, g: Ground) -> bool {
    match g {
        Ground::Same(a, b) | Ground::Rel(_, a, b) => {
            is_linked(classes, names, a) || is_linked(classes, names, b)
        }
        Ground::Prop(_, a) => is_linked(classes, names, a),
    }
}

// How many classes there are.
fn class_count(classes: &ClassTable, names: u8) -> usize {
    (0..names).filter(|a| classes.leader(*a) == *a).count()
}

impl<'b, 't, 's, 'c, 'm, 'n, B: Book, T: BranchTable> Search<'b, 't, 's, 'c, 'm, 'n, B, T> {
    // Tells the atom with other names as it stands, if those have the leaders of its own.
    fn tell_renamed(&mut self, g: Ground, x: u8, y: u8) -> Result<bool, Hopeless>
        requires { Ready B.Book T.BranchTable self.old }
        ensures { Passes B.Book T.BranchTable self.old self.new result }
    {
        if !is_led(&self.classes, g, x, y) {
            return Ok(false);
        }
        let counts = self.book.counts();
        let other = renamed(g, x, y);
        let Some(atom) = atom_number(counts, other) else {
            return Ok(false);
        };
        if self.sign_at(atom).is_some() {
            return Ok(false);
        }
        let Some(from) = atom_number(counts, g) else {
            return Ok(false);
        };
        let Some(sign) = self.sign_at(from) else {
            return Ok(false);
        };
        if !occurs(self.book, other) {
            return Ok(false);
        }
        self.enforce(SignedAtom {
            atom: atom as u16,
            sign,
        })?;
        Ok(true)
    }

    // For each two names.
    fn tell_linked(&mut self, atom: u16) -> Result<bool, Hopeless>
        requires { Ready B.Book T.BranchTable self.old }
        ensures { Passes B.Book T.BranchTable self.old self.new result }
    {
        let counts = self.book.counts();
        let names = counts.names();
        let Some(g) = atom_at(counts, atom as usize) else {
            return Ok(false);
        };
        if !has_linked(&self.classes, names, g) {
            return Ok(false);
        }
        let mut moved = false;
        for x in 0..names {
            for y in 0..names {
                moved |= self.tell_renamed(g, x, y)?;
            }
        }
        Ok(moved)
    }

    // For the atoms on the trail from a height on.
    // A twin of `pursue` but for the step: the check covers no closure that takes `&mut Self`, for its many lifetimes.
    fn spread_from(&mut self, from: usize) -> Result<bool, Hopeless>
        requires { Ready B.Book T.BranchTable self.old }
        ensures { Passes B.Book T.BranchTable self.old self.new result }
    {
        let mut moved = false;
        let mut at = from;
        while let Some(atom) = self.trail.at(at) {
            moved |= self.tell_linked(atom)?;
            at += 1;
        }
        Ok(moved)
    }

    // Tells atoms of linked names, from where the hints say; after classes were joined, from the start.
    pub(crate) fn spread(&mut self, hints: &mut Hints) -> Result<bool, Hopeless>
        requires { Ready B.Book T.BranchTable self.old }
        ensures { Passes B.Book T.BranchTable self.old self.new result }
    {
        let names = self.book.counts().names();
        let count = class_count(&self.classes, names);
        let from = if count == hints.classes {
            hints.spread
        } else {
            0
        };
        hints.classes = count;
        if count >= names as usize {
            return Ok(false);
        }
        let moved = self.spread_from(from);
        hints.spread = self.trail.height();
        moved
    }
}
