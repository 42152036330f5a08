// Memory lent to a table and to a stack, and what its lender knows of it then.
ghost use Rattle.std.specs.Prelude.{◌≡◌, true, length, replicate};
ghost use Rattle.syntax.specs.declared.types.Mark.TheVariants.{Open};
ghost use Rattle.tables.specs.Listed.{all_open};
ghost use Rattle.tables.specs.Packed.{packed_marks, packed_reach, beyond};
ghost use Rattle.tables_tests.specs.Told.{count_told};

use crate::walk::tell_and_untell;
use syntax::types::SignedAtom;
use tables::listed::ListedTable;
use tables::packed::PackedTable;
use tables::stack::Stack;
use tables::table::BranchTable;

// Tells the atoms as far as it goes, with a stack over the slots, and takes them back.
fn try_table<T: BranchTable>(table: &mut T, slots: &mut [u16], atoms: &[u16]) -> usize
    ensures count { result ≡ count_told (T.room table.old) true (length slots.old) (T.marks table.old) atoms.now }
    ensures marks { T.marks table.new ≡ T.marks table.old }
    ensures loan { T.loan table.new ≡ T.loan table.old }
{
    tell_and_untell(table, &mut Stack::new(slots), atoms, true)
}

// Tells the atoms in the bytes as far as it goes and takes them back: the bytes are clear then, and those
// beyond the reach as they were.
pub fn try_bytes(bytes: &mut [u8], slots: &mut [u16], atoms: &[u16]) -> usize
    ensures count { result ≡ count_told (packed_reach bytes.old) true (length slots.old) (replicate (packed_reach bytes.old) Open) atoms.now }
    ensures clear { packed_marks bytes.new ≡ replicate (packed_reach bytes.old) Open }
    ensures beyond { beyond bytes.new ≡ beyond bytes.old }
{
    try_table(&mut PackedTable::new(bytes), slots, atoms)
}

// The same in rows.
pub fn try_rows(rows: &mut [SignedAtom], slots: &mut [u16], atoms: &[u16]) -> usize
    ensures { result ≡ count_told (length rows.old) true (length slots.old) all_open atoms.now }
{
    try_table(&mut ListedTable::new(rows), slots, atoms)
}
