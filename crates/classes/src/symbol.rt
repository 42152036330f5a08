// The symbols of a book: sameness, properties and relations. Which are lawful depends on counts that a symbol doesn't
// hold, so the methods of `Classed` say so in clauses.
pub mod atoms;

#[derive(Clone, Copy)]
pub enum Symbol {
    Same,
    Prop(u8),
    Rel(u8),
}
