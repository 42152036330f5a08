// What a comparison answers. specs/Compared.antt says of each case when it is due.

// Some interpretation satisfies the first book and not the second; none does, and some satisfies the second and
// not the first; the same interpretations satisfy both.
#[derive(Clone, Copy, PartialEq, Debug)]
pub enum Comparison {
    FirstOnly,
    SecondOnly,
    Equal,
}
