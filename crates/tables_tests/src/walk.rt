// Code over any branch table: a list of atoms told, and taken back.
ghost use Rattle.std.specs.Prelude.{◌≡◌, ◌-◌, ◌++◌, length, take};
ghost use Rattle.tables.specs.Items.{items, slots_of, loan_of};
ghost use Rattle.tables_tests.specs.Told.{count_told, told};

use tables::stack::Stack;
use tables::table::BranchTable;
use tables::walk::untell_to;

// Tells the atoms one after the other, all with one sign, and puts each on the trail. Stops at the
// first that is refused or finds no slot, and answers how many were told.
pub fn tell_all<T: BranchTable>(
    table: &mut T,
    trail: &mut Stack<'_, u16>,
    atoms: &[u16],
    sign: bool,
) -> usize
    ensures count { result ≡ count_told (T.room table.old) sign (slots_of trail.old - length (items trail.old)) (T.marks table.old) atoms.now }
    ensures marks { T.marks table.new ≡ told sign (T.marks table.old) (take result atoms.now) }
    ensures trail { items trail.new ≡ items trail.old ++ take result atoms.now }
    ensures room { T.room table.new ≡ T.room table.old }
    ensures loan { T.loan table.new ≡ T.loan table.old }
    ensures slots { slots_of trail.new ≡ slots_of trail.old }
    ensures lent { loan_of trail.new ≡ loan_of trail.old }
{
    for (done, atom) in atoms.iter().enumerate() {
        if trail.is_full() {
            return done;
        }
        if table.tell(*atom as usize, sign).is_err() {
            return done;
        }
        let _ = trail.push(*atom);
    }
    atoms.len()
}

// Tells the atoms as far as it goes and takes them back: the table means what it meant.
pub fn tell_and_untell<T: BranchTable>(
    table: &mut T,
    trail: &mut Stack<'_, u16>,
    atoms: &[u16],
    sign: bool,
) -> usize
    ensures count { result ≡ count_told (T.room table.old) sign (slots_of trail.old - length (items trail.old)) (T.marks table.old) atoms.now }
    ensures marks { T.marks table.new ≡ T.marks table.old }
    ensures trail { items trail.new ≡ items trail.old }
    ensures room { T.room table.new ≡ T.room table.old }
    ensures loan { T.loan table.new ≡ T.loan table.old }
    ensures slots { slots_of trail.new ≡ slots_of trail.old }
    ensures lent { loan_of trail.new ≡ loan_of trail.old }
{
    let height = trail.height();
    let done = tell_all(table, trail, atoms, sign);
    untell_to(table, trail, height);
    done
}
