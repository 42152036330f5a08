// A branch's own model, written as bytes.
ghost use Rattle.std.specs.Prelude.{◌≡◌, ◌≤◌, length, slice_set};
ghost use Rattle.syntax.specs.Numbers.{atoms, number_of, LawfulGround};
ghost use Rattle.semantics.specs.Bytes.{bit};
ghost use Rattle.semantics.specs.Branch.{own, ClassTable as Classes};
ghost use Rattle.classes.specs.Leaders.{leader_of};
ghost use Rattle.classes.specs.Symbols.{LawfulSymbol, view};
ghost use Rattle.classes.specs.Models.{Written, ItsBytes};
ghost use Rattle.classes.specs.Writing.{Better, SymbolRight, own_of};

use crate::classed::Classed;
use crate::symbol::Symbol;
use syntax::counts::Counts;
use syntax::numbers::{atom_count, atom_number};
use syntax::types::{Ground, Refusal};
use tables::table::BranchTable;

// Writes whether an atom holds.
fn put(counts: Counts, memory: &mut [u8], atom: Ground, holds: bool)
    requires lawful { LawfulGround counts atom }
    requires room { atoms counts ≤ length memory.old }
    ensures { memory.new ≡ slice_set memory.old (number_of counts atom) (bit holds) }
{
    if let Some(k) = atom_number(counts, atom) {
        memory[k] = u8::from(holds);
    }
}

impl<'a, T: BranchTable> Classed<'a, T> {
    // Writes the atoms of one symbol.
    fn write_symbol(&self, symbol: Symbol, memory: &mut [u8])
        requires lawful { LawfulSymbol self.now.counts symbol }
        requires room { atoms self.now.counts ≤ length memory.old }
        ensures better { Better self.now.counts (own_of (view T.marks self.now)) memory.old memory.new }
        ensures right { SymbolRight self.now.counts (own_of (view T.marks self.now)) symbol memory.new }
    {
        let holding = self.holding(symbol);
        // A `for`: after `for_each` a proof knows nothing of what its closure changed.
        for x in 0..self.counts.names() {
            for y in 0..symbol.width(self.counts) {
                let holds = holding.has(self.classes.leader(x), self.classes.leader(y));
                put(self.counts, memory, symbol.atom(x, y), holds);
            }
        }
    }

    // Writes the branch's own model into the first A bytes of the memory.
    pub fn write_model(&self, memory: &mut [u8]) -> Result<(), Refusal>
        ensures written { Written self.now.counts (own self.now.counts (T.marks self.now.table.now) (leader_of self.now.classes.now)) memory.old memory.new result }
        ensures model { Classes self.now.counts (T.marks self.now.table.now) (leader_of self.now.classes.now) → ItsBytes self.now.counts (own self.now.counts (T.marks self.now.table.now) (leader_of self.now.classes.now)) memory.new result }
    {
        let counts = self.counts;
        if memory.len() < atom_count(counts) {
            return Err(Refusal::MemoryShort);
        }
        for k in 0..Symbol::count(counts) {
            self.write_symbol(Symbol::nth(counts, k), memory);
        }
        Ok(())
    }
}
