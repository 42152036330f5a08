// A set of pairs of leaders.
pub mod places;

ghost use Rattle.std.specs.Prelude.{◌≡◌, length};

// Whether the pair of `a` and `b` is in the set stands at 32 a + b; a library call allocates nothing, so no map.
#[derive(Drop)]
pub struct Pairs {
    found: [bool; 1024],
    ghost whole: { length found ≡ 1024 },
}
