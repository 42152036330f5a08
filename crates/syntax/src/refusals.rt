// What a refusal says of itself.
ghost use Rattle.std.specs.Prelude.{◌≡◌, length, Some, MatchOption, ◌≢◌};
ghost use Rattle.syntax.specs.Refusals.{cause, values, line_word, shown};

use crate::types::{Place, Refusal};
use std::fmt;

impl Refusal {
    // The number of the cause.
    pub fn cause(self) -> u8
        ensures { result ≡ cause self }
    {
        match self {
            Refusal::Limits | Refusal::LimitsAt(_) => 1,
            Refusal::Unlawful => 2,
            Refusal::BookFull | Refusal::BookFullAt(_) => 3,
            Refusal::StrikeAbove => 4,
            Refusal::CountsDiffer => 5,
            Refusal::TableSmall => 6,
            Refusal::StackSmall => 7,
            Refusal::MemoryShort => 8,
            Refusal::NotInterpretation => 9,
            Refusal::TooMany => 10,
            Refusal::FileLength => 11,
            Refusal::BlockCheck(_) => 12,
            Refusal::BlockLayout(_) => 13,
            Refusal::TextFault(_) => 14,
            Refusal::BeyondReach => 15,
            Refusal::Standing => 16,
            Refusal::TableFull => 17,
            Refusal::NotStanding => 18,
        }
    }

    // The line and the word of a text's fault; nothing for any other refusal.
    pub fn place(self) -> Option<Place>
        ensures { MatchOption result (length (values self) ≢ 2) (λ p. values self ≡ line_word p) }
    {
        match self {
            Refusal::LimitsAt(place) | Refusal::BookFullAt(place) | Refusal::TextFault(place) => {
                Some(place)
            }
            _ => None,
        }
    }
}

// The number, the line and the word; line and word are 0 where it has no place.
impl fmt::Display for Refusal {
    ghost output = { λ e. Some (shown e) };

    fn fmt<W: fmt::Write>(&self, f: &mut fmt::Formatter<W>) -> fmt::Result {
        let place = self.place().unwrap_or_default();
        write!(f, "{} {} {}", self.cause(), place.line, place.word)
    }
}
