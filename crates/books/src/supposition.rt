// A layer on any book: at most 16 literals, each of which, where it is ground and lawful below, is a
// clause after those below.
ghost use Rattle.std.specs.Prelude.{◌≤◌};
ghost use Rattle.arrayvec.specs.ArrayVec.{array_vec_len};

use arrayvec::ArrayVec;
use syntax::types::Literal;

pub mod calls;

#[derive(Drop)]
pub struct Supposition<B> {
    below: B,
    literals: ArrayVec<Literal, 16>,
    ghost few: { array_vec_len literals ≤ 16 },
}
