// Whether a branch clashes.
ghost use Rattle.std.specs.Prelude.{◌<◌, Decides};
ghost use Rattle.semantics.specs.Branch.{Clash, ClassTable as Classes};
ghost use Rattle.classes.specs.Leaders.{leader_of};
ghost use Rattle.classes.specs.Symbols.{LawfulSymbol, Meets, MeetsRow, SymbolClash, view};
ghost use Rattle.classes.specs.Clashes.{ClashAt, ClashBy};
ghost use Rattle.classes.specs.Theorems.{ClashByLaw, ClashAtLaw, ClashTold, ClassesTold, ClassesSame};

use crate::classed::Classed;
use crate::symbol::Symbol;
use syntax::numbers::atom_number;
use syntax::types::{Ground, Mark};
use tables::table::BranchTable;

impl<'a, T: BranchTable> Classed<'a, T> {
    // Whether an atom of the symbol and the first name has the mark, its second name having the leader `q`. It stands
    // apart from `meets`, since the proof of an `any` inside another does not close.
    fn row_meets(&self, symbol: Symbol, x: u8, q: u8, mark: Mark) -> bool
        ensures { LawfulSymbol self.now.counts symbol → x < self.now.counts.names → Decides result (MeetsRow (view T.marks self.now) symbol mark x q) }
    {
        (0..symbol.width(self.counts)).any(|y| self.classes.leader(y) == q
            && self.stands(symbol, x, y, mark))
    }

    // Whether an atom of the symbol has the mark, its names having the leaders `p` and `q`.
    fn meets(&self, symbol: Symbol, p: u8, q: u8, mark: Mark) -> bool
        requires { LawfulSymbol self.now.counts symbol }
        ensures { Decides result (Meets (view T.marks self.now) symbol mark p q) }
    {
        (0..self.counts.names()).any(|x| self.classes.leader(x) == p
            && self.row_meets(symbol, x, q, mark))
    }

    // Whether the branch clashes around one literal that stands.
    pub fn clashes_at(&self, atom: Ground, sign: bool) -> bool
        ensures { Decides result (ClashAt self.now.counts (T.marks self.now.table.now) (leader_of self.now.classes.now) atom sign) }
    {
        if atom_number(self.counts, atom).is_none() {
            return false;
        }
        let classes = self.classes;
        match atom {
            Ground::Same(a, b) => !sign && classes.leader(a) == classes.leader(b),
            Ground::Prop(p, a) => self.meets(
                Symbol::Prop(p),
                classes.leader(a),
                classes.leader(0),
                Mark::from(!sign),
            ),
            Ground::Rel(r, a, b) => self.meets(
                Symbol::Rel(r),
                classes.leader(a),
                classes.leader(b),
                Mark::from(!sign),
            ),
        }
    }

    // Whether an atom of the symbol stands no for names for which the symbol holds in the branch's own model.
    fn symbol_clashes(&self, symbol: Symbol) -> bool
        requires { LawfulSymbol self.now.counts symbol }
        ensures { Decides result (SymbolClash (view T.marks self.now) symbol) }
    {
        match symbol {
            // Two names are one thing there where their leaders are one: the other pairs are not looked at.
            Symbol::Same => (0..self.counts.names()).any(|x| self.row_meets(
                symbol,
                x,
                self.classes.leader(x),
                Mark::No,
            )),
            Symbol::Prop(_) | Symbol::Rel(_) => {
                self.holding(symbol).shares(&self.found(symbol, Mark::No))
            }
        }
    }

    // Whether the branch clashes, anywhere.
    pub fn clashes(&self) -> bool
        ensures by { Decides result (ClashBy self.now.counts (T.marks self.now.table.now) (leader_of self.now.classes.now)) }
        ensures clash { Classes self.now.counts (T.marks self.now.table.now) (leader_of self.now.classes.now) → Decides result (Clash self.now.counts (T.marks self.now.table.now)) }
    {
        (0..Symbol::count(self.counts)).any(|k| self.symbol_clashes(Symbol::nth(self.counts, k)))
    }
}

// A clash read off the leaders, the clash around one literal, and when a class table stays.
pub fn clash_laws() -> ()
    ensures by { ClashByLaw }
    ensures at { ClashAtLaw }
    ensures told { ClashTold }
    ensures classes { ClassesTold }
    ensures same { ClassesSame }
{}
