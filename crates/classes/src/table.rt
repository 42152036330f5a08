// A class table: for each name its leader.
ghost use Rattle.std.specs.Prelude.{◌≡◌, ℕ, ◌<◌, ◌≤◌, length, slice_index};

pub mod linking;

// No leader lies above its name, and each leads itself. `ClassTable::of` makes the values that a branch gives.
#[derive(Clone, Copy)]
pub struct ClassTable {
    leaders: [u8; 32],
    ghost whole: { length leaders ≡ 32 },
    ghost low: { (a : ℕ) → a < 32 → slice_index leaders a ≤ a },
    ghost lead: { (a : ℕ) → a < 32 → slice_index leaders (slice_index leaders a) ≡ slice_index leaders a },
}
