// What the relation of a comparison settles.
ghost use Rattle.comparison.specs.Laws.{OneComparison, ExactComparison};

// A comparison has one answer, and each answer is given exactly when what it means is so.
pub fn comparison_laws() -> ()
    ensures one { OneComparison }
    ensures exact { ExactComparison }
{}
