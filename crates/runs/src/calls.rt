// The calls that a list is made of, and what they answer.
use comparison::answer::Comparison;
use questions::answers::{Certainty, Sameness};
use syntax::types::{Literal, Refusal};
use tableau::verdict::Verdict;

// A call on a working book. A comparison is against a book that is lent, with the working book in the
// first place or in the second. An enum and no closures: the law over lists of calls speaks of which calls they are.
#[derive_where(Clone, Copy)]
pub enum Call<'a, B> {
    Enter(&'a [Literal]),
    Strike(usize),
    Judge,
    Same(u8, u8),
    Holds(Literal),
    CompareFirst(&'a B),
    CompareSecond(&'a B),
}

// What a call answered: done or refused, for enter and strike; else its answer. Each case has a Result of its own, so that
// a refusal still says which kind of call it answers.
#[derive(Clone, Copy)]
pub enum Answer {
    Changed(Result<(), Refusal>),
    Judged(Result<Verdict, Refusal>),
    Same(Result<Sameness, Refusal>),
    Holds(Result<Certainty, Refusal>),
    Compared(Result<Comparison, Refusal>),
}
