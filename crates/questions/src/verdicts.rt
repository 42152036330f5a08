// What a judgement says.
ghost use Rattle.std.specs.Prelude.{◌≡◌};
ghost use Rattle.questions.specs.Verdicts.{found};

use syntax::types::Refusal;
use tableau::verdict::Verdict;

// Whether the answer is that there is a model.
pub fn is_consistent(answer: Result<Verdict, Refusal>) -> bool
    ensures { result ≡ found answer }
{
    matches!(answer, Ok(Verdict::Consistent))
}
