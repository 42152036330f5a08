// What every kind of book is.
ghost use Rattle.std.specs.Prelude.{◌≡◌, ◌≤◌, List, [], length, slice_index_or};
ghost use Rattle.std.specs.List.{AllByRecursion};
ghost use Rattle.syntax.specs.declared.types.Literal.{Literal as Lit};
ghost use Rattle.syntax.specs.declared.counts.Counts.{Counts as Cnt};
ghost use Rattle.syntax.specs.Lawful.{Lawful};
ghost use Rattle.books.specs.Lists.{size_at_index, literal_at};
ghost use Rattle.books.specs.Rest.{literals_left};

use crate::literals::Literals;
use syntax::counts::Counts;
use syntax::types::Literal;

// A book means three counts and a list of clauses. Each impl shows that every clause is lawful at the
// counts and that there are at most 65,535. No call changes the book.
pub trait Book {
    ghost counts: { Self → Cnt };

    ghost clauses: { Self → List (List Lit) };

    ghost lawful: { (b : Self) → AllByRecursion (Lawful (counts b)) (clauses b) };

    ghost few: { (b : Self) → length (clauses b) ≤ 65535 };

    // How many names, properties and relations the book has.
    fn counts(&self) -> Counts
        ensures { result ≡ counts self.now };

    // How many clauses it has.
    fn len(&self) -> usize
        ensures { result ≡ length (clauses self.now) };

    // How many literals clause i has; nothing beyond the list.
    fn literals(&self, i: usize) -> Option<usize>
        ensures { result ≡ size_at_index (clauses self.now) i };

    // Literal j of clause i; nothing beyond the list or the clause.
    fn literal(&self, i: usize, j: usize) -> Option<Literal>
        ensures { result ≡ literal_at (clauses self.now) i j };

    // The literals of clause i, in order; none beyond the list.
    final fn literals_of(&self, i: usize) -> Literals<'_, Self>
        ensures all { literals_left clauses result ≡ slice_index_or (clauses self.now) i [] }
        ensures few { length (literals_left clauses result) ≤ 8 }
    {
        Literals {
            book: self,
            clause: i,
            next: 0,
        }
    }
}

// A book that is lent is a book.
impl<'a, B: Book> Book for &'a B {
    ghost counts = { λ b. B.Book.counts b.now };

    ghost clauses = { λ b. B.Book.clauses b.now };

    ghost lawful = { λ b. B.Book.lawful b.now };

    ghost few = { λ b. B.Book.few b.now };

    fn counts(&self) -> Counts {
        (**self).counts()
    }

    fn len(&self) -> usize {
        (**self).len()
    }

    fn literals(&self, i: usize) -> Option<usize> {
        (**self).literals(i)
    }

    fn literal(&self, i: usize, j: usize) -> Option<Literal> {
        (**self).literal(i, j)
    }
}
