// Carries out a list of calls.
ghost use Rattle.std.specs.Prelude.{◌≡◌, map};
ghost use Rattle.books.specs.Working.{standing_of};
ghost use Rattle.tables.specs.Spaces.{SameMemory};
ghost use Rattle.tableau.specs.Judged.{lent};
ghost use Rattle.runs.specs.Runs.{meant, Called};
ghost use Rattle.runs.specs.Laws.{Performed};

use crate::calls::{Answer, Call};
use books::book::Book;
use books::working::WorkingBook;
use comparison::compare::compare;
use questions::ask::{holds, same};
use tableau::judge::judge;
use tables::space::Space;
use tables::table::BranchTable;

// Carries out one call.
fn act<'a, B: Book, T: BranchTable>(
    book: &mut WorkingBook,
    call: Call<'a, B>,
    space: &mut Space<'_, T>,
    model: &mut [u8],
) -> Answer
    ensures counts { book.new.counts ≡ book.old.counts }
    ensures called { Called book.old.counts (standing_of book.old) (lent T.BranchTable space.old model.old) (meant B.Book call.entry) result (standing_of book.new) (lent T.BranchTable space.new model.new) }
    ensures memory { SameMemory space.old space.new }
{
    match call {
        Call::Enter(literals) => Answer::Changed(book.enter(literals)),
        Call::Strike(k) => Answer::Changed(book.strike(k)),
        Call::Judge => Answer::Judged(judge(book, space, model)),
        Call::Same(a, b) => Answer::Same(same(book, a, b, space)),
        Call::Holds(l) => Answer::Holds(holds(book, l, space)),
        Call::CompareFirst(other) => Answer::Compared(compare(book, other, space, model)),
        Call::CompareSecond(other) => Answer::Compared(compare(other, book, space, model)),
    }
}

// Carries out the calls in order, and writes each answer into the journal; ends with the list, or where the journal is
// full. Answers how many calls were done. The journal past them stays as it was. It is written by index: of what
// `iter_mut` lends a proof knows the length alone.
pub fn perform<'a, B: Book, T: BranchTable>(
    book: &mut WorkingBook,
    calls: &[Call<'a, B>],
    space: &mut Space<'_, T>,
    model: &mut [u8],
    journal: &mut [Answer],
) -> usize
    ensures performed { Performed book.old.counts (standing_of book.old) (map (meant B.Book) calls.now) (lent T.BranchTable space.old model.old) journal.old result book.new.counts (standing_of book.new) (lent T.BranchTable space.new model.new) journal.new }
    ensures memory { SameMemory space.old space.new }
{
    let many = calls.len().min(journal.len());
    for k in 0..many {
        journal[k] = act(book, calls[k], space, model);
    }
    many
}
