// A block taken apart, and whether its parts are right.
ghost use Rattle.std.specs.Prelude.{◌≡◌, ℕ, ◌*◌, ◌%◌, ◌≤◌, List, ◌∷◌, length, replicate, take, Decides, sum, MatchOption, ◌≢◌};
ghost use Rattle.syntax.specs.Codes.{literal_code};
ghost use Rattle.syntax.specs.Lawful.{Lawful, LawfulLiteral};
ghost use Rattle.blocks.specs.Format.{clause_bytes};
ghost use Rattle.blocks.specs.Layout.{CheckRight, Clauses};
ghost use Rattle.blocks.specs.Parts.{Made, MadeOne};

use syntax::codes::decode_literal;
use syntax::counts::Counts;

// The sum of the bytes modulo 65,536.
fn check_sum(bytes: &[u8]) -> u16
    ensures { result ≡ sum bytes.now % 65536 }
{
    bytes
        .iter()
        .fold(0, |sum: u16, b| sum.wrapping_add(u16::from(*b)))
}

// Whether the check of a block is right.
pub(crate) fn check_is_right(block: &[u8]) -> bool
    requires { length block.now ≡ 512 }
    ensures { Decides result (CheckRight block.now) }
{
    u16::from_le_bytes([block[510], block[511]]) == check_sum(&block[..510])
}

// Whether all bytes are zero.
pub(crate) fn are_zeros(bytes: &[u8]) -> bool
    ensures { Decides result (bytes.now ≡ replicate (length bytes.now) 0) }
{
    bytes.iter().all(|b| *b == 0)
}

// Whether the bytes are those of lawful literals.
fn are_literals(counts: Counts, bytes: &[u8]) -> bool
    requires { length bytes.now % 5 ≡ 0 }
    ensures { Decides result (Made literal_code (LawfulLiteral counts) bytes.now) }
{
    bytes
        .chunks_exact(5)
        .all(|code| decode_literal(counts, code).is_some())
}

// Whether 42 bytes are those of a lawful clause.
fn is_clause(counts: Counts, bytes: &[u8]) -> bool
    requires { length bytes.now ≡ 42 }
    ensures { Decides result (MadeOne clause_bytes (Lawful counts) bytes.now) }
{
    let [len @ 1..=8, 0, places @ ..] = bytes else {
        return false;
    };
    let (used, unused) = places.split_at(5 * *len as usize);
    are_literals(counts, used) && are_zeros(unused)
}

// Whether the bytes are those of lawful clauses.
fn are_clauses(counts: Counts, bytes: &[u8]) -> bool
    requires { length bytes.now % 42 ≡ 0 }
    ensures { Decides result (Made clause_bytes (Lawful counts) bytes.now) }
{
    bytes
        .chunks_exact(42)
        .all(|clause| is_clause(counts, clause))
}

// The contents of a block of this kind (0 a head, 1 clauses) with this count; nothing where its first four
// bytes are others. The kind stays the byte of the format: it is only compared, so an enum would be turned
// back into it.
pub(crate) fn contents<'a>(block: &'a [u8], kind: u8, count: usize) -> Option<&'a [u8]>
    requires { length block.now ≡ 512 }
    ensures { MatchOption result ((body : List ℕ) → take 510 block.now ≢ 75 ∷ (66 ∷ (kind ∷ (count ∷ body)))) (λ body. take 510 block.now ≡ 75 ∷ (66 ∷ (kind ∷ (count ∷ body.now)))) }
{
    let [b'K', b'B', has_kind, has_count, rest @ ..] = block else {
        return None;
    };
    if *has_kind != kind || usize::from(*has_count) != count {
        return None;
    }
    Some(&rest[..506])
}

// Whether the layout of a clause block with n clauses is right.
pub(crate) fn is_clause_block(counts: Counts, block: &[u8], n: usize) -> bool
    requires size { length block.now ≡ 512 }
    requires few { n ≤ 12 }
    ensures { Decides result (Clauses counts n block.now) }
{
    let Some(body) = contents(block, 1, n) else {
        return false;
    };
    let (used, unused) = body.split_at(42 * n);
    are_clauses(counts, used) && are_zeros(unused)
}
