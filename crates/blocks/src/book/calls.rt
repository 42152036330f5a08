// Reading a block file, and the calls of the block book.
ghost use Rattle.std.specs.Prelude.{◌≡◌, ◌<◌, ◌≤◌, length, MatchOption};
ghost use Rattle.blocks.specs.Parts.{ClauseAt};
ghost use Rattle.blocks.specs.Reading.{place_of};
ghost use Rattle.blocks.specs.Book.{counts_of, clauses_of, block_few, Read, Exact};

use crate::book::BlockBook;
use crate::file::{Head, read_head, wrong_check, wrong_clauses};
use books::book::Book;
use syntax::codes::decode_literal;
use syntax::counts::Counts;
use syntax::types::{Literal, Refusal};

// The book that the bytes of a file hold; refused as 11, 12 or 13 where they are no file.
#[tactic(auto, using(crate::proofs::Files::exact))]
pub fn read_blocks<'a>(bytes: &'a [u8]) -> Result<BlockBook<'a>, Refusal>
    ensures read { Read bytes.now result }
    ensures exact { Exact bytes.now }
{
    if bytes.is_empty() || bytes.len() % 512 != 0 {
        return Err(Refusal::FileLength);
    }
    if let Some(b) = wrong_check(bytes) {
        return Err(Refusal::BlockCheck(b));
    }
    let Some(Head { counts, len }) = read_head(bytes) else {
        return Err(Refusal::BlockLayout(0));
    };
    if let Some(b) = wrong_clauses(bytes, counts, len) {
        return Err(Refusal::BlockLayout(b + 1));
    }
    Ok(BlockBook { bytes, counts, len })
}

// Where clause i begins.
fn place_of(i: usize) -> usize
    requires { i < 256 }
    ensures { result ≡ place_of i }
{
    512 * (1 + i / 12) + (4 + 42 * (i % 12))
}

impl<'a> BlockBook<'a> {
    // The bytes of clause i; nothing beyond the list.
    fn clause(&self, i: usize) -> Option<&'a [u8]>
        ensures { MatchOption result (length (clauses_of self.now) ≤ i) (λ b. ClauseAt (counts_of self.now) (clauses_of self.now) i b.now) }
    {
        if i >= self.len {
            return None;
        }
        let from = place_of(i);
        Some(&self.bytes[from..from + 42])
    }
}

impl<'a> Book for BlockBook<'a> {
    ghost counts = { counts_of };

    ghost clauses = { clauses_of };

    ghost lawful = { λ b. b.file.lawful };

    ghost few = { block_few };

    fn counts(&self) -> Counts {
        self.counts
    }

    fn len(&self) -> usize {
        self.len
    }

    fn literals(&self, i: usize) -> Option<usize> {
        let clause = self.clause(i)?;
        Some(clause[0] as usize)
    }

    fn literal(&self, i: usize, j: usize) -> Option<Literal> {
        let clause = self.clause(i)?;
        if j >= clause[0] as usize {
            return None;
        }
        let from = 2 + 5 * j;
        decode_literal(self.counts, &clause[from..from + 5])
    }
}
