ghost use Rattle.std.specs.Prelude.{◌≡◌, ℕ, ◌<◌, ◌≤◌, length};
ghost use Rattle.semantics.specs.Branch.{ClassTable as Classes};
ghost use Rattle.classes.specs.Leaders.{leader_of};
ghost use Rattle.classes.specs.Linking.{Coarser, Joined, Leading, leader_in, relabel};

use crate::marks::mark_of;
use crate::table::ClassTable;
use std::array;
use syntax::counts::Counts;
use syntax::types::{Ground, Mark};
use tables::table::BranchTable;

// Gives the names that the higher of the leaders of two names has to the lower.
fn join(leaders: &mut [u8], a: u8, b: u8)
    requires whole { length leaders.old ≡ 32 }
    requires names { (a < 32) × (b < 32) }
    ensures { (k : ℕ) → k < 32 → leader_in leaders.new k ≡ relabel (leader_in leaders.old a) (leader_in leaders.old b) (leader_in leaders.old k) }
{
    let (p, q) = (leaders[usize::from(a)], leaders[usize::from(b)]);
    let low = p.min(q);
    let high = p.max(q);
    for leader in leaders.iter_mut() {
        if *leader == high {
            *leader = low;
        }
    }
}

// Joins the class of a name with those of the names that stand the same.
fn join_row<T: BranchTable>(counts: Counts, table: &T, leaders: &mut [u8], a: u8)
    requires name { a < counts.names }
    requires leading { Leading counts (T.marks table.now) leaders.old }
    ensures leading { Leading counts (T.marks table.now) leaders.new }
    ensures coarser { Coarser leaders.old leaders.new }
    ensures joined { Joined counts (T.marks table.now) leaders.new a counts.names }
{
    for b in 0..counts.names() {
        // Where the leaders are one there is nothing to join, and the table is not asked.
        if leaders[usize::from(a)] != leaders[usize::from(b)]
            && mark_of(counts, table, Ground::Same(a, b)) == Mark::Yes
        {
            join(leaders, a, b);
        }
    }
}

impl ClassTable {
    // The class table of a branch: each name has as leader the lowest name linked with it.
    pub fn of<T: BranchTable>(counts: Counts, table: &T) -> ClassTable
        ensures { Classes counts (T.marks table.now) (leader_of result) }
    {
        let mut leaders: [u8; 32] = array::from_fn(|a| a as u8);
        for a in 0..counts.names() {
            join_row(counts, table, &mut leaders, a);
        }
        ClassTable { leaders }
    }

    // The leader of a name; 0 for a name at or above 32.
    pub fn leader(&self, name: u8) -> u8
        ensures { result ≡ leader_of self.now name }
    {
        self.leaders.get(usize::from(name)).copied().unwrap_or(0)
    }
}
