// What a branch table is: a mark for each atom below its reach, and how many may stand.
ghost use Rattle.std.specs.Prelude.{◌≡◌, ℕ, ◌≤◌, List, length};
ghost use Rattle.syntax.specs.declared.types.Mark.{Mark};
ghost use Rattle.syntax.specs.Refusals.{UnlessRefused};
ghost use Rattle.tables.specs.Marks.{Asked, Told, Untold, cleared, standing};
ghost use Rattle.tables.specs.Memory.{Loan};

use syntax::types::{Mark, Refusal};

pub trait BranchTable {
    // The mark of each atom below the reach, in order.
    ghost marks: { Self → List Mark };

    // The capacity: the most atoms that may stand.
    ghost room: { Self → ℕ };

    // Never do more stand.
    ghost within: { (t : Self) → standing (marks t) ≤ room t };

    // The memory that is lent to it.
    ghost loan: { Self → Loan };

    // How many atoms it has a mark for.
    fn reach(&self) -> usize
        ensures { result ≡ length (marks self.now) };

    // How many atoms may stand.
    fn capacity(&self) -> usize
        ensures { result ≡ room self.now };

    // The mark of an atom.
    fn ask(&self, atom: usize) -> Result<Mark, Refusal>
        ensures { Asked (marks self.now) atom result };

    // Gives an open atom a sign. That room and loan stay is said at each call that changes the table: code over any
    // table uses them one by one.
    fn tell(&mut self, atom: usize, sign: bool) -> Result<(), Refusal>
        ensures told { Told (marks self.old) (room self.old) atom sign (marks self.new) result }
        ensures kept { UnlessRefused self.old self.new result }
        ensures room { room self.new ≡ room self.old }
        ensures loan { loan self.new ≡ loan self.old };

    // Opens an atom that stands.
    fn untell(&mut self, atom: usize) -> Result<(), Refusal>
        ensures untold { Untold (marks self.old) atom (marks self.new) result }
        ensures kept { UnlessRefused self.old self.new result }
        ensures room { room self.new ≡ room self.old }
        ensures loan { loan self.new ≡ loan self.old };

    // Opens every atom.
    fn clear(&mut self)
        ensures cleared { marks self.new ≡ cleared (marks self.old) }
        ensures room { room self.new ≡ room self.old }
        ensures loan { loan self.new ≡ loan self.old };
}
