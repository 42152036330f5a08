// The pairs of leaders for which a symbol stands, or holds.
ghost use Rattle.std.specs.Prelude.{◌≡◌, ◌<◌, Decides};
ghost use Rattle.classes.specs.Pairs.{Has};
ghost use Rattle.classes.specs.Symbols.{Holding, LawfulSymbol, Found, mark_in, view, width, atom_with};

use crate::classed::Classed;
use crate::marks::mark_of;
use crate::pairs::Pairs;
use crate::symbol::Symbol;
use syntax::types::Mark;
use tables::table::BranchTable;

impl<'a, T: BranchTable> Classed<'a, T> {
    // Whether the symbol's atom of two names has the mark.
    pub(crate) fn stands(&self, symbol: Symbol, x: u8, y: u8, mark: Mark) -> bool
        ensures { LawfulSymbol self.now.counts symbol → x < self.now.counts.names → y < width self.now.counts symbol → Decides result (mark_in (view T.marks self.now) (atom_with symbol x y) ≡ mark) }
    {
        mark_of(self.counts, self.table, symbol.atom(x, y)) == mark
    }

    // The leaders of names for which the symbol's atom has the mark.
    pub(crate) fn found(&self, symbol: Symbol, mark: Mark) -> Pairs
        requires { LawfulSymbol self.now.counts symbol }
        ensures { Found (view T.marks self.now) symbol mark result }
    {
        let mut pairs = Pairs::new();
        // A `for`: after `for_each` a proof knows nothing of what its closure changed.
        for x in 0..self.counts.names() {
            for y in 0..symbol.width(self.counts) {
                if self.stands(symbol, x, y, mark) {
                    pairs.add(self.classes.leader(x), self.classes.leader(y));
                }
            }
        }
        pairs
    }

    // The leaders for which the symbol holds in the branch's own model.
    pub(crate) fn holding(&self, symbol: Symbol) -> Pairs
        requires { LawfulSymbol self.now.counts symbol }
        ensures { Holding (view T.marks self.now) symbol result }
    {
        match symbol {
            Symbol::Same => Pairs::diagonal(),
            Symbol::Prop(_) | Symbol::Rel(_) => self.found(symbol, Mark::Yes),
        }
    }
}
