// What the questions answer. specs/Asked.antt says of each case when it is due. Two enums, since of names and of literals people
// read other words; `Sameness::from` takes the one to the other.
ghost use Rattle.std.specs.Prelude.{◌≡◌};
ghost use Rattle.questions.specs.Asked.{named_so};

// Of a ground literal: the book has no model; every model makes it hold; none does; some do and some
// do not.
#[derive(Clone, Copy, PartialEq, Debug)]
pub enum Certainty {
    Contradictory,
    Sure,
    Excluded,
    Open,
}

// Of two names: the book has no model; every model makes them one thing; none does; some do and some
// do not.
#[derive(Clone, Copy, PartialEq, Debug)]
pub enum Sameness {
    Contradictory,
    Equal,
    Distinct,
    Open,
}

// The answer on two names, from the answer on the literal that says that they are one thing.
impl From<Certainty> for Sameness {
    ghost from_gives = { λ answer s. s ≡ named_so answer };

    fn from(answer: Certainty) -> Sameness {
        match answer {
            Certainty::Contradictory => Sameness::Contradictory,
            Certainty::Sure => Sameness::Equal,
            Certainty::Excluded => Sameness::Distinct,
            Certainty::Open => Sameness::Open,
        }
    }
}
