// The block book: the lent bytes of a file, and what its head says. `read_blocks` is the one way to make a value.
ghost use Rattle.blocks.specs.Reading.{clauses_at};
ghost use Rattle.blocks.specs.Layout.{IsFile};
ghost use Rattle.blocks.specs.OneProof.{IsFile-prop};

pub mod calls;

use syntax::counts::Counts;

#[derive(Clone, Copy)]
pub struct BlockBook<'a> {
    bytes: &'a [u8],
    counts: Counts,
    len: usize,
    ghost file: { IsFile bytes.now counts (clauses_at len bytes.now) } by { IsFile-prop bytes.now counts (clauses_at len bytes.now) },
}
