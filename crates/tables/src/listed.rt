// A branch table that lists the atoms that stand.
ghost use Rattle.std.specs.Prelude.{◌≡◌, ◌+◌, ◌<◌, ◌≤◌, [], length, slice_index_or, take, slice_set, All, HoldsAt, MatchOption, ◌≢◌};
ghost use Rattle.syntax.specs.declared.types.SignedAtom.{SignedAtom};
ghost use Rattle.tables.specs.Marks.{signed, stands};
ghost use Rattle.tables.specs.Listed.{Each, Sought, all_open, listed};
ghost use Rattle.tables.specs.Within.{listed_within};

use crate::table::BranchTable;
use syntax::types::{Mark, Refusal, SignedAtom};

// How many atoms a listed table has a mark for.
const REACH: usize = 10240;

// The first `len` rows are those of the atoms that stand. The rows are lent: how many there are is the lender's to say,
// not the type's, so no `ArrayVec`.
#[derive(Drop)]
pub struct ListedTable<'a> {
    rows: &'a mut [SignedAtom],
    len: usize,
    ghost within: { len ≤ length rows.now },
    ghost each: { Each (take len rows.now) },
}

// The place of a row with the atom.
fn seek(rows: &[SignedAtom], atom: usize) -> Option<usize>
    ensures { MatchOption result (All (λ r. r.atom ≢ atom) rows.now) (λ at. (at < length rows.now) × HoldsAt (λ r. r.atom ≡ atom) rows.now at) }
{
    rows.iter().position(|row| row.atom as usize == atom)
}

// Adds a row for an open atom after the first `len`.
fn add_row(rows: &mut [SignedAtom], len: usize, atom: u16, sign: bool)
    requires free { len < length rows.old }
    requires near { atom < 10240 }
    requires each { Each (take len rows.old) }
    requires lies { stands (slice_index_or (listed (take len rows.old)) atom Mark.Open) ≡ 0 }
    ensures each { Each (take (len + 1) rows.new) }
    ensures told { listed (take (len + 1) rows.new) ≡ slice_set (listed (take len rows.old)) atom (signed sign) }
{
    rows[len] = SignedAtom { atom, sign };
}

// Gives the row at a place up: the last of the first `last + 1` takes its place.
fn remove_row(rows: &mut [SignedAtom], last: usize, at: usize)
    requires some { last < length rows.old }
    requires at { at ≤ last }
    requires each { Each (take (last + 1) rows.old) }
    ensures each { Each (take last rows.new) }
    ensures untold { (d : SignedAtom) → listed (take last rows.new) ≡ slice_set (listed (take (last + 1) rows.old)) (slice_index_or (take (last + 1) rows.old) at d).atom Mark.Open }
{
    rows[at] = rows[last];
}

impl<'a> ListedTable<'a> {
    // A clear table over the rows, which stay as they are.
    pub fn new(rows: &'a mut [SignedAtom]) -> ListedTable<'a>
        ensures clear { listed (take result.len result.rows.now) ≡ all_open }
        ensures rows { result.rows.now ≡ rows.old }
        ensures loan { result.rows.ghost_name ≡ rows.entry.ghost_name }
    {
        ListedTable { rows, len: 0 }
    }

    // The place of an atom's row, if it has one.
    fn place(&self, atom: usize) -> Result<Option<usize>, Refusal>
        ensures { Sought (take self.now.len self.now.rows.now) atom result }
    {
        if atom >= REACH {
            return Err(Refusal::BeyondReach);
        }
        Ok(seek(&self.rows[..self.len], atom))
    }
}

impl<'a> BranchTable for ListedTable<'a> {
    ghost marks = { λ t. listed (take t.len t.rows.now) };

    ghost room = { λ t. length t.rows.now };

    ghost within = { λ t. listed_within t.rows.now t.len t.within t.each };

    ghost loan = { λ t. record { name = t.rows.ghost_name; spare = [] } };

    fn reach(&self) -> usize {
        REACH
    }

    fn capacity(&self) -> usize {
        self.rows.len()
    }

    fn ask(&self, atom: usize) -> Result<Mark, Refusal> {
        Ok(match self.place(atom)? {
            Some(at) => Mark::from(self.rows[at].sign),
            None => Mark::Open,
        })
    }

    fn tell(&mut self, atom: usize, sign: bool) -> Result<(), Refusal> {
        if self.place(atom)?.is_some() {
            return Err(Refusal::Standing);
        }
        if self.len == self.rows.len() {
            return Err(Refusal::TableFull);
        }
        add_row(self.rows, self.len, atom as u16, sign);
        self.len += 1;
        Ok(())
    }

    fn untell(&mut self, atom: usize) -> Result<(), Refusal> {
        let at = self.place(atom)?.ok_or(Refusal::NotStanding)?;
        remove_row(self.rows, self.len - 1, at);
        self.len -= 1;
        Ok(())
    }

    fn clear(&mut self) {
        self.len = 0;
    }
}
