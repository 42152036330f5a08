// What is known of the number of standing atoms, whatever the table.
ghost use Rattle.tables.specs.Counting.{OneMore, OneLess, NoneLeft, AtMost, Fewer, ToldReach, UntoldReach, ClearedReach, ToldOnce, UntoldOnce};

// One more stands after a tell, one less after an untell, none after a clear; at most A where nothing
// at or above A stands, and fewer where an atom below A is open; the reach stays; tell and untell have one outcome.
pub fn counting_laws() -> ()
    ensures more { OneMore }
    ensures less { OneLess }
    ensures left { NoneLeft }
    ensures most { AtMost }
    ensures fewer { Fewer }
    ensures tell_reach { ToldReach }
    ensures untell_reach { UntoldReach }
    ensures clear_reach { ClearedReach }
    ensures told { ToldOnce }
    ensures untold { UntoldOnce }
{}
