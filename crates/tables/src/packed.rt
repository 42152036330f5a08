// A branch table with four atoms to a byte.
ghost use Rattle.std.specs.Prelude.{◌≡◌, ℕ, ◌^◌, ◌<◌, length, replicate, ◌≢◌, slice_set};
ghost use Rattle.tables.specs.Packed.{digit, meant, packed_marks, packed_reach, beyond, wiped};
ghost use Rattle.tables.specs.Within.{packed_within};

use crate::table::BranchTable;
use syntax::types::{Mark, Refusal};

// How many bytes count at most.
const MOST_BYTES: usize = 2560;

#[derive(Drop)]
pub struct PackedTable<'a> {
    bytes: &'a mut [u8],
}

fn weight(place: usize) -> u8
    requires { place < 4 }
    ensures { result ≡ 4 ^ place }
{
    1 << (2 * place)
}

fn digit_of(byte: u8, place: usize) -> u8
    requires { place < 4 }
    ensures { result ≡ digit byte place }
{
    (byte >> (2 * place)) % 4
}

// The byte with another digit at one place.
fn with_digit(byte: u8, place: usize, value: u8) -> u8
    requires place { place < 4 }
    requires value { value < 4 }
    ensures here { digit result place ≡ value }
    ensures elsewhere { (j : ℕ) → j < 4 → (j ≢ place) → digit result j ≡ digit byte j }
{
    let w = weight(place);
    byte - digit_of(byte, place) * w + value * w
}

// A mark and its digit. These are no `From`: neither `Mark` nor `u8` is a type of this crate.
fn mark_of(value: u8) -> Mark
    ensures { result ≡ meant value }
{
    match value {
        0 => Mark::Open,
        1 => Mark::Yes,
        _ => Mark::No,
    }
}

fn digit_for(mark: Mark) -> u8
    ensures small { result < 4 }
    ensures means { meant result ≡ mark }
{
    match mark {
        Mark::Open => 0,
        Mark::Yes => 1,
        Mark::No => 2,
    }
}

// Gives an atom the mark.
fn put_mark(bytes: &mut [u8], atom: usize, mark: Mark)
    requires { atom < packed_reach bytes.old }
    ensures marks { packed_marks bytes.new ≡ slice_set (packed_marks bytes.old) atom mark }
    ensures beyond { beyond bytes.new ≡ beyond bytes.old }
    ensures length { length bytes.new ≡ length bytes.old }
{
    let at = atom / 4;
    bytes[at] = with_digit(bytes[at], atom % 4, digit_for(mark));
}

// Writes a 0 into each byte that counts.
fn put_zeros(bytes: &mut [u8])
    ensures { bytes.new ≡ wiped bytes.old }
{
    let count = bytes.len().min(MOST_BYTES);
    bytes[..count].fill(0);
}

impl<'a> PackedTable<'a> {
    // A clear table over the bytes: a 0 in each of the first 2,560, those beyond as they were.
    pub fn new(bytes: &'a mut [u8]) -> PackedTable<'a>
        ensures clear { packed_marks result.bytes.now ≡ replicate (packed_reach bytes.old) Mark.Open }
        ensures reach { packed_reach result.bytes.now ≡ packed_reach bytes.old }
        ensures bytes { result.bytes.now ≡ wiped bytes.old }
        ensures loan { result.bytes.ghost_name ≡ bytes.entry.ghost_name }
    {
        put_zeros(bytes);
        PackedTable { bytes }
    }
}

impl<'a> BranchTable for PackedTable<'a> {
    ghost marks = { λ t. packed_marks t.bytes.now };

    ghost room = { λ t. packed_reach t.bytes.now };

    ghost within = { λ t. packed_within t.bytes.now };

    ghost loan = { λ t. record { name = t.bytes.ghost_name; spare = beyond t.bytes.now } };

    fn reach(&self) -> usize {
        4 * self.bytes.len().min(MOST_BYTES)
    }

    fn capacity(&self) -> usize {
        self.reach()
    }

    fn ask(&self, atom: usize) -> Result<Mark, Refusal> {
        if atom >= self.reach() {
            return Err(Refusal::BeyondReach);
        }
        Ok(mark_of(digit_of(self.bytes[atom / 4], atom % 4)))
    }

    fn tell(&mut self, atom: usize, sign: bool) -> Result<(), Refusal> {
        if self.ask(atom)? != Mark::Open {
            return Err(Refusal::Standing);
        }
        put_mark(self.bytes, atom, Mark::from(sign));
        Ok(())
    }

    fn untell(&mut self, atom: usize) -> Result<(), Refusal> {
        if self.ask(atom)? == Mark::Open {
            return Err(Refusal::NotStanding);
        }
        put_mark(self.bytes, atom, Mark::Open);
        Ok(())
    }

    fn clear(&mut self) {
        put_zeros(self.bytes);
    }
}
