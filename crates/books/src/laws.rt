// What the relations of the calls settle.
ghost use Rattle.books.specs.Reckoned.{OpenSettled, EnterSettled, StrikeSettled, SupposeSettled};

// Every call's answer and list are reckoned from its arguments, so two outcomes of one call are equal.
pub fn call_laws() -> ()
    ensures opens { OpenSettled }
    ensures enters { EnterSettled }
    ensures strikes { StrikeSettled }
    ensures supposes { SupposeSettled }
{}
