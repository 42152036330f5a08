// The blocks of a file: the head, and the first block that is wrong.
ghost use Rattle.std.specs.Prelude.{◌≡◌, ℕ, suc, length, MatchOption};
ghost use Rattle.syntax.specs.declared.counts.Counts.{Counts as Cnt};
ghost use Rattle.blocks.specs.Format.{blocks_for};
ghost use Rattle.blocks.specs.Layout.{HeadIs, LengthRight, ChecksRight, Clauses, block_at, block_count, due};
ghost use Rattle.blocks.specs.Parts.{HeadBody, Searched};

use crate::block::{are_zeros, check_is_right, contents, is_clause_block};
use syntax::counts::Counts;

// What the head says.
#[derive(Clone, Copy)]
pub struct Head {
    pub counts: Counts,
    pub len: usize,
}

// The counts and the number of clauses from the contents of a head; nothing where they are wrong.
fn read_contents(body: &[u8]) -> Option<Head>
    requires { length body.now ≡ 506 }
    ensures { MatchOption result ((c : Cnt) (n : ℕ) → HeadBody body.now c n → ⊥) (λ h. HeadBody body.now h.counts h.len) }
{
    let [names, properties, relations, low, high, rest @ ..] = body else {
        return None;
    };
    let len = usize::from(u16::from_le_bytes([*low, *high]));
    if len > 256 || !are_zeros(rest) {
        return None;
    }
    let Ok(counts) = Counts::new(*names as usize, *properties as usize, *relations as usize) else {
        return None;
    };
    Some(Head { counts, len })
}

// What block 0 says; nothing where its layout is wrong. That the length is right is a clause of this function and the
// next two, and no type: `read_blocks` has tested it and makes the book's own type after them.
pub(crate) fn read_head(bytes: &[u8]) -> Option<Head>
    requires { LengthRight bytes.now }
    ensures { MatchOption result ((c : Cnt) (n : ℕ) → HeadIs bytes.now c n → ⊥) (λ h. HeadIs bytes.now h.counts h.len) }
{
    let head = read_contents(contents(&bytes[..512], 0, 0)?)?;
    if bytes.len() / 512 != 1 + head.len.div_ceil(12) {
        return None;
    }
    Some(head)
}

// The first block whose check is wrong.
pub(crate) fn wrong_check(bytes: &[u8]) -> Option<usize>
    requires { LengthRight bytes.now }
    ensures { Searched (ChecksRight bytes.now) (block_count bytes.now) result }
{
    bytes
        .chunks_exact(512)
        .position(|block| !check_is_right(block))
}

// The first clause block whose layout is wrong, where n clauses are due. It goes by the number b, since b
// says how many clauses are due.
pub(crate) fn wrong_clauses(bytes: &[u8], counts: Counts, n: usize) -> Option<usize>
    requires size { LengthRight bytes.now }
    requires head { HeadIs bytes.now counts n }
    ensures { Searched (λ b. Clauses counts (due n b) (block_at bytes.now (suc b))) (blocks_for n) result }
{
    (0..n.div_ceil(12)).find(|b| {
        let from = 512 * *b + 512;
        !is_clause_block(counts, &bytes[from..from + 512], (n - 12 * *b).min(12))
    })
}
