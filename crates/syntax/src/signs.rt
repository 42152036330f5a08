// The mark of a sign, the literal with the other sign, and a literal for places that do not count.
ghost use Rattle.std.specs.Prelude.{◌≡◌};
ghost use Rattle.syntax.specs.Signs.{signed, opposite, filler};

use crate::types::{Atom, Literal, Mark, Term};
use std::ops::Not;

// Yes for a literal that is said, no for one denied.
impl From<bool> for Mark {
    ghost from_gives = { λ sign m. m ≡ signed sign };

    fn from(sign: bool) -> Mark {
        if sign { Mark::Yes } else { Mark::No }
    }
}

// Said where it was denied, and the other way round.
impl Not for Literal {
    type Output = Literal;

    ghost not_gives = { λ l r. r ≡ opposite l };

    fn not(self) -> Literal {
        Literal {
            sign: !self.sign,
            atom: self.atom,
        }
    }
}

// Name 0 is name 0: lawful at any counts.
impl Default for Literal {
    ghost is_default = { λ l. l ≡ filler };

    fn default() -> Literal {
        Literal {
            sign: true,
            atom: Atom::Same(Term::Name(0), Term::Name(0)),
        }
    }
}
