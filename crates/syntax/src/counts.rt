// How many names, properties and relations a book has.
ghost use Rattle.std.specs.Prelude.{◌≤◌};

pub mod limits;

// The limits are part of the type. `Counts::new` is the one way to make a value.
#[derive(Clone, Copy, PartialEq)]
pub struct Counts {
    names: u8,
    properties: u8,
    relations: u8,
    ghost some: { 1 ≤ names },
    ghost few: { names ≤ 32 },
    ghost props: { properties ≤ 32 },
    ghost rels: { relations ≤ 8 },
}
