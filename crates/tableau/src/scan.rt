// Looks at the instances of a clause on a branch.
ghost use Rattle.std.specs.Prelude.{◌≡◌, ℕ, ◌<◌, ◌≤◌, [], length, slice_index_or};
ghost use Rattle.syntax.specs.declared.types.Mark.TheVariants.{Open};
ghost use Rattle.syntax.specs.Numbers.{atoms};
ghost use Rattle.syntax.specs.Lawful.{LawfulLiteral};
ghost use Rattle.semantics.specs.Meaning.{Assigns};
ghost use Rattle.instances.specs.Assignments.{names_of};
ghost use Rattle.tableau.specs.Signs.{signed_atom_of, instance};
ghost use Rattle.tableau.specs.Scans.{sign_of, Evaluated, with_open};

use crate::types::{Search, Status};
use books::book::Book;
use instances::literals;
use syntax::counts::Counts;
use syntax::numbers::atom_number;
use syntax::types::{Literal, Mark, SignedAtom};
use tables::table::BranchTable;

// The instance of a literal, by its number.
fn signed_atom(counts: Counts, names: [u8; 4], l: Literal) -> SignedAtom
    requires lawful { LawfulLiteral counts l }
    requires assigns { Assigns counts (names_of names) }
    ensures is { result ≡ signed_atom_of counts (names_of names) l }
    ensures below { result.atom < atoms counts }
{
    SignedAtom {
        atom: atom_number(counts, literals::instance(names, l.atom)).unwrap() as u16,
        sign: l.sign,
    }
}

// How an instance stands with one more open atom.
fn opens(status: Status, l: SignedAtom) -> Status
    ensures { result ≡ with_open status l }
{
    match status {
        Status::Fulfilled => Status::Fulfilled,
        Status::Broken => Status::Forced(l),
        Status::Forced(m) | Status::Loose(m) => Status::Loose(m),
    }
}

impl<'b, 't, 's, 'c, 'm, 'n, B: Book, T: BranchTable> Search<'b, 't, 's, 'c, 'm, 'n, B, T> {
    // The sign with which an atom stands on the branch.
    pub(crate) fn sign_at(&self, atom: usize) -> Option<bool>
        ensures { result ≡ sign_of (slice_index_or (T.marks self.now.table.now) atom Open) }
    {
        match self.table.ask(atom) {
            Ok(Mark::Yes) => Some(true),
            Ok(Mark::No) => Some(false),
            Ok(Mark::Open) | Err(_) => None,
        }
    }

    // How an instance of clause i stands on the branch.
    pub(crate) fn evaluate(&self, i: usize, names: [u8; 4]) -> Status
        requires inside { i < length (B.clauses self.now.book.now) }
        requires assigns { Assigns (B.counts self.now.book.now) (names_of names) }
        requires reaches { atoms (B.counts self.now.book.now) ≤ length (T.marks self.now.table.now) }
        ensures { Evaluated (T.marks self.now.table.now) (instance (B.counts self.now.book.now) (names_of names) (slice_index_or (B.clauses self.now.book.now) i [])) (instance (B.counts self.now.book.now) (names_of names) (slice_index_or (B.clauses self.now.book.now) i [])) result }
    {
        let counts = self.book.counts();
        let mut status = Status::Broken;
        for l in self.book.literals_of(i) {
            let atom = signed_atom(counts, names, l);
            match self.sign_at(atom.atom as usize) {
                Some(sign) => if sign == atom.sign {
                    return Status::Fulfilled;
                },
                None => status = opens(status, atom),
            }
        }
        status
    }
}
