// Whether a clause of one book stands word for word in another.
ghost use Rattle.std.specs.Prelude.{◌≡◌, ◌<◌, [], length, Decides, slice_index_or};
ghost use Rattle.std.specs.List.{ContainsAt};

use books::book::Book;

// Whether clause k of the one book is clause i of the other: no clause has more than 8 literals. A `for`: it ends where
// both clauses do, and an `all` over the eight places asks for those beyond too.
fn is_clause<F: Book, S: Book>(one: &F, k: usize, other: &S, i: usize) -> bool
    ensures { Decides result (slice_index_or (F.clauses one.now) k [] ≡ slice_index_or (S.clauses other.now) i []) }
{
    for j in 0..8 {
        let l = one.literal(k, j);
        if l != other.literal(i, j) {
            return false;
        }
        if l.is_none() {
            return true;
        }
    }
    true
}

// Whether clause i of the other book is a clause of the one.
pub(crate) fn stands_in<F: Book, S: Book>(one: &F, other: &S, i: usize) -> bool
    ensures { Decides result (ContainsAt (F.clauses one.now) (slice_index_or (S.clauses other.now) i [])) }
{
    (0..one.len()).any(|k| is_clause(one, k, other, i))
}
