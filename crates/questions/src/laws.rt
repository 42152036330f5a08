// What the relations of the questions settle.
ghost use Rattle.questions.specs.Laws.{OneCertainty, OneSameness, ExactCertainty, ExactSameness};

// A question has one answer, and each answer is given exactly when what it means is so.
pub fn question_laws() -> ()
    ensures holds { OneCertainty }
    ensures same { OneSameness }
    ensures exact { ExactCertainty }
    ensures names { ExactSameness }
{}
