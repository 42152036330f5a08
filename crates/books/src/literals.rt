// The literals of a clause of a book, one after another.
ghost use Rattle.std.specs.Iterator.{YieldsFirst, item_count};
ghost use Rattle.books.specs.Rest.{literals_left};

use crate::book::Book;
use syntax::types::Literal;

#[derive(Drop)]
pub struct Literals<'b, B> {
    pub(crate) book: &'b B,
    pub(crate) clause: usize,
    pub(crate) next: usize,
}

impl<'b, B: Book> Iterator for Literals<'b, B> {
    type Item = Literal;

    ghost next_gives = { YieldsFirst (literals_left B.clauses) };

    ghost remaining = { item_count (literals_left B.clauses) };

    fn next(&mut self) -> Option<Literal> {
        let l = self.book.literal(self.clause, self.next)?;
        self.next += 1;
        Some(l)
    }
}
