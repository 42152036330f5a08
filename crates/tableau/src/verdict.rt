// What judging answers.

// Some interpretation satisfies every clause of the book; or none does.
#[derive(Clone, Copy, PartialEq, Debug)]
pub enum Verdict {
    Consistent,
    Contradictory,
}
