// How many names each of the variables 0 to 3 runs through: 1 to 32.
ghost use Rattle.std.specs.Prelude.{ℕ, ◌<◌, ◌≤◌, slice_index};

pub mod calls;

#[derive(Clone, Copy)]
pub struct Ranges {
    most: [u8; 4],
    ghost each: { (v : ℕ) → v < 4 → (1 ≤ slice_index most v) × (slice_index most v ≤ 32) },
}
