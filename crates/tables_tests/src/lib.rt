#![tactic(auto)]
// The tables and the stack at work: what a lender knows of its memory after, and the edges.
pub mod lent;
pub mod walk;

#[cfg(test)]
mod tests {
    use crate::lent::{try_bytes, try_rows};
    use syntax::types::{Mark, Refusal, SignedAtom};
    use tables::listed::ListedTable;
    use tables::packed::PackedTable;
    use tables::stack::{Choice, Stack};
    use tables::table::BranchTable;

    // A call with what it answers: a table of cases that is run at either kind of table.
    #[derive(Clone, Copy)]
    enum Step {
        Reach(usize),
        Capacity(usize),
        Ask(usize, Result<Mark, Refusal>),
        Tell(usize, bool, Result<(), Refusal>),
        Untell(usize, Result<(), Refusal>),
        Clear,
    }

    // How many of the steps answer as said, up to the first that does not.
    fn run<T: BranchTable>(table: &mut T, steps: &[Step]) -> usize {
        for (i, step) in steps.iter().enumerate() {
            let right = match *step {
                Step::Reach(n) => table.reach() == n,
                Step::Capacity(n) => table.capacity() == n,
                Step::Ask(atom, answer) => table.ask(atom) == answer,
                Step::Tell(atom, sign, answer) => table.tell(atom, sign) == answer,
                Step::Untell(atom, answer) => table.untell(atom) == answer,
                Step::Clear => {
                    table.clear();
                    true
                }
            };
            if !right {
                return i;
            }
        }
        steps.len()
    }

    #[test]
    fn no_bytes(rt: HostRuntime) {
        let mut bytes: [u8; 0] = [];
        let mut table = PackedTable::new(&mut bytes);
        let steps = [
            Step::Reach(0),
            Step::Capacity(0),
            Step::Ask(0, Err(Refusal::BeyondReach)),
            Step::Tell(0, true, Err(Refusal::BeyondReach)),
            Step::Untell(0, Err(Refusal::BeyondReach)),
        ];
        assert_eq!(rt; run(&mut table, &steps), 5);
    }

    #[test]
    fn all_bytes(rt: HostRuntime) {
        let mut bytes = [255u8; 2560];
        let mut table = PackedTable::new(&mut bytes);
        let steps = [
            Step::Reach(10240),
            Step::Capacity(10240),
            Step::Ask(10239, Ok(Mark::Open)),
            Step::Tell(10239, false, Ok(())),
            Step::Tell(10239, true, Err(Refusal::Standing)),
            Step::Ask(10239, Ok(Mark::No)),
            Step::Ask(10238, Ok(Mark::Open)),
            Step::Tell(10240, true, Err(Refusal::BeyondReach)),
            Step::Untell(10238, Err(Refusal::NotStanding)),
            Step::Clear,
            Step::Ask(10239, Ok(Mark::Open)),
        ];
        assert_eq!(rt; run(&mut table, &steps), 11);
    }

    #[test]
    fn one_byte_beyond(rt: HostRuntime) {
        let mut bytes = [255u8; 2561];
        let mut table = PackedTable::new(&mut bytes);
        let steps = [
            Step::Reach(10240),
            Step::Capacity(10240),
            Step::Tell(10239, true, Ok(())),
            Step::Ask(10240, Err(Refusal::BeyondReach)),
            Step::Clear,
        ];
        assert_eq!(rt; run(&mut table, &steps), 5);
        assert_eq!(rt; bytes[2559], 0);
        assert_eq!(rt; bytes[2560], 255);
    }

    #[test]
    fn no_rows(rt: HostRuntime) {
        let mut rows: [SignedAtom; 0] = [];
        let mut table = ListedTable::new(&mut rows);
        let steps = [
            Step::Reach(10240),
            Step::Capacity(0),
            Step::Ask(10239, Ok(Mark::Open)),
            Step::Tell(10239, true, Err(Refusal::TableFull)),
            Step::Tell(10240, true, Err(Refusal::BeyondReach)),
            Step::Untell(0, Err(Refusal::NotStanding)),
        ];
        assert_eq!(rt; run(&mut table, &steps), 6);
    }

    #[test]
    fn one_row(rt: HostRuntime) {
        let mut rows = [SignedAtom {
            atom: 7,
            sign: true,
        }];
        let mut table = ListedTable::new(&mut rows);
        let steps = [
            Step::Ask(7, Ok(Mark::Open)),
            Step::Tell(10239, false, Ok(())),
            Step::Ask(10239, Ok(Mark::No)),
            Step::Tell(10239, true, Err(Refusal::Standing)),
            Step::Tell(7, true, Err(Refusal::TableFull)),
            Step::Untell(10239, Ok(())),
            Step::Tell(7, true, Ok(())),
            Step::Ask(7, Ok(Mark::Yes)),
        ];
        assert_eq!(rt; run(&mut table, &steps), 8);
    }

    #[test]
    fn choices(rt: HostRuntime) {
        let mut slots = [Choice {
            height: 0,
            atom: 0,
            sign: false,
        }; 2];
        let mut stack = Stack::new(&mut slots);
        assert!(rt;
            stack.push(Choice {
                height: 0,
                atom: 5,
                sign: true,
            })
        );
        assert!(rt;
            stack.push(Choice {
                height: 3,
                atom: 6,
                sign: false,
            })
        );
        assert!(rt; stack.is_full());
        assert!(rt;
            !stack.push(Choice {
                height: 4,
                atom: 7,
                sign: true,
            })
        );
        stack.cut(1);
        assert!(rt; stack.at(1).is_none());
        assert_eq!(rt; stack.pop().map(|choice| choice.atom), Some(5));
    }

    // In the bytes the third atom is refused, as it stands; in two rows, as the table is full.
    #[test]
    fn both_tables(rt: HostRuntime) {
        let mut bytes = [255u8; 3];
        let mut slots = [0u16; 4];
        assert_eq!(rt; try_bytes(&mut bytes, &mut slots, &[3, 11, 3, 2]), 2);
        assert_eq!(rt; bytes[0], 0);
        assert_eq!(rt; try_bytes(&mut bytes, &mut slots, &[0, 1, 2, 3, 4]), 4);
        let mut rows = [SignedAtom {
            atom: 1,
            sign: true,
        }; 2];
        assert_eq!(rt; try_rows(&mut rows, &mut slots, &[3, 11, 4]), 2);
    }
}
