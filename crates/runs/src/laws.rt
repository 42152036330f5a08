// What holds of every list of calls.
ghost use Rattle.runs.specs.Laws.{RunLaw, OneAnswer};

// After every run the book holds exactly the clauses that stand, and each answer is right for those that stood when the
// call was made; and a call has one answer.
pub fn run_laws() -> ()
    ensures run { RunLaw }
    ensures one { OneAnswer }
{}
