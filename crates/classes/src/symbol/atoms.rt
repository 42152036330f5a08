ghost use Rattle.std.specs.Prelude.{◌≡◌, ◌<◌};
ghost use Rattle.classes.specs.Symbols.{LawfulSymbol, atom_with, symbol_at, symbols, width};

use crate::symbol::Symbol;
use syntax::counts::Counts;
use syntax::types::Ground;

impl Symbol {
    // How many symbols the book has.
    pub(crate) fn count(counts: Counts) -> u8
        ensures { result ≡ symbols counts }
    {
        1 + counts.properties() + counts.relations()
    }

    // The symbol with the number `k`: sameness, then the properties, then the relations.
    pub(crate) fn nth(counts: Counts, k: u8) -> Symbol
        requires { k < symbols counts }
        ensures at { result ≡ symbol_at counts k }
        ensures lawful { LawfulSymbol counts result }
    {
        if k == 0 {
            Symbol::Same
        } else if k - 1 < counts.properties() {
            Symbol::Prop(k - 1)
        } else {
            Symbol::Rel(k - 1 - counts.properties())
        }
    }

    // The atom of the symbol and names; a property takes the first.
    pub(crate) fn atom(self, a: u8, b: u8) -> Ground
        ensures { result ≡ atom_with self a b }
    {
        match self {
            Symbol::Same => Ground::Same(a, b),
            Symbol::Prop(p) => Ground::Prop(p, a),
            Symbol::Rel(r) => Ground::Rel(r, a, b),
        }
    }

    // How many second names the symbol takes; a property takes 0 alone.
    pub(crate) fn width(self, counts: Counts) -> u8
        ensures { result ≡ width counts self }
    {
        match self {
            Symbol::Prop(_) => 1,
            Symbol::Same | Symbol::Rel(_) => counts.names(),
        }
    }
}
