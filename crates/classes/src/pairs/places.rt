ghost use Rattle.std.specs.Prelude.{◌≡◌, ℕ, ◌+◌, ◌*◌, ◌<◌, Decides, ◌⊎◌};
ghost use Rattle.classes.specs.Pairs.{Has};

use crate::pairs::Pairs;

// The place of a pair. Leaders lie below 32, which clauses say: a type for such numbers would be turned back at once.
fn place(a: u8, b: u8) -> usize
    requires { (a < 32) × (b < 32) }
    ensures at { result ≡ a * 32 + b }
    ensures near { result < 1024 }
{
    usize::from(a) * 32 + usize::from(b)
}

impl Pairs {
    // The set of no pairs.
    pub(crate) fn new() -> Pairs
        ensures { (a b : ℕ) → Has result a b → ⊥ }
    {
        Pairs {
            found: [false; 1024],
        }
    }

    // The set of each leader with itself.
    pub(crate) fn diagonal() -> Pairs
        ensures { (a b : ℕ) → (Has result a b → (a ≡ b) × (a < 32)) × ((a ≡ b) × (a < 32) → Has result a b) }
    {
        let mut pairs = Pairs::new();
        for a in 0..32 {
            pairs.add(a, a);
        }
        pairs
    }

    // Whether the pair is in the set.
    pub(crate) fn has(&self, a: u8, b: u8) -> bool
        requires { (a < 32) × (b < 32) }
        ensures { Decides result (Has self.now a b) }
    {
        self.found[place(a, b)]
    }

    // Puts the pair into the set.
    pub(crate) fn add(&mut self, a: u8, b: u8)
        requires { (a < 32) × (b < 32) }
        ensures here { Has self.new a b }
        ensures more { (x y : ℕ) → Has self.old x y → Has self.new x y }
        ensures only { (x y : ℕ) → Has self.new x y → Has self.old x y ⊎ ((x ≡ a) × (y ≡ b)) }
    {
        self.found[place(a, b)] = true;
    }

    // Whether some pair is in both sets.
    pub(crate) fn shares(&self, other: &Pairs) -> bool
        ensures { Decides result ((a : ℕ) × (b : ℕ) × Has self.now a b × Has other.now a b) }
    {
        self.found
            .iter()
            .zip(&other.found)
            .any(|(one, two)| *one && *two)
    }
}
