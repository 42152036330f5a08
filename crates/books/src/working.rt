// The working book: of 256 places the first `len` count, and each of those holds a clause that is
// lawful at the counts. An array with a length, since an ArrayVec of clauses writes over each clause
// that is struck.
ghost use Rattle.std.specs.Prelude.{◌≡◌, ◌≤◌, length, take};
ghost use Rattle.books.specs.Stored.{LawfulStored, LawfulStored-prop};

use arrayvec::ArrayVec;
use syntax::counts::Counts;
use syntax::types::Literal;

pub mod calls;

#[derive(Drop)]
pub struct WorkingBook {
    counts: Counts,
    clauses: [ArrayVec<Literal, 8>; 256],
    len: usize,
    ghost fits: { len ≤ 256 },
    ghost whole: { length clauses ≡ 256 },
    ghost lawful: { LawfulStored counts (take len clauses) } by { LawfulStored-prop counts (take len clauses) },
}
