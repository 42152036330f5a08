ghost use Rattle.std.specs.Prelude.{◌≡◌};
ghost use Rattle.syntax.specs.Limits.{Counted};

use crate::counts::Counts;
use crate::types::Refusal;

impl Counts {
    // The counts of these three numbers; refused as cause 1 where one lies outside its limits.
    pub fn new(names: usize, properties: usize, relations: usize) -> Result<Counts, Refusal>
        ensures { Counted names properties relations result }
    {
        match (names, properties, relations) {
            (1..=32, 0..=32, 0..=8) => Ok(Counts {
                names: names as u8,
                properties: properties as u8,
                relations: relations as u8,
            }),
            _ => Err(Refusal::Limits),
        }
    }

    pub fn names(self) -> u8
        ensures { result ≡ self.names }
    {
        self.names
    }

    pub fn properties(self) -> u8
        ensures { result ≡ self.properties }
    {
        self.properties
    }

    pub fn relations(self) -> u8
        ensures { result ≡ self.relations }
    {
        self.relations
    }
}
