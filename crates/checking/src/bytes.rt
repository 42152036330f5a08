// Whether bytes are those of an interpretation.
ghost use Rattle.std.specs.Prelude.{◌≡◌, ℕ, ◌<◌, Decides};
ghost use Rattle.syntax.specs.Numbers.{LawfulGround};
ghost use Rattle.semantics.specs.Meaning.{Interpretation};
ghost use Rattle.semantics.specs.Bytes.{byte_at, SameBy, BytesOf};
ghost use Rattle.checking.specs.Alike.{Bits, Reflexive, Onward, LikeProperties, LikeBeside, LikeRelation, LikeRelations, Alike, LikeOwn, AllLike, Tested, Accepted};

use crate::candidate::Candidate;
use syntax::counts::Counts;
use syntax::numbers::{atom_count, atom_number};
use syntax::types::Ground;

impl<'a> Candidate<'a> {
    // The byte at the number of an atom of the book.
    pub(crate) fn byte_of(&self, g: Ground) -> u8
        ensures { LawfulGround self.now.counts g → result ≡ byte_at self.now.counts self.now.bytes.now g }
    {
        match atom_number(self.counts, g) {
            Some(k) => self.bytes[k],
            None => 0,
        }
    }

    // Whether two names are the same.
    fn are_same(&self, a: u8, b: u8) -> bool
        requires { (a < self.now.counts.names) × (b < self.now.counts.names) }
        ensures { Decides result (SameBy self.now.counts self.now.bytes.now a b) }
    {
        self.byte_of(Ground::Same(a, b)) == 1
    }

    // Whether each byte is 0 or 1.
    fn are_bits(&self) -> bool
        ensures { Decides result (Bits self.now.bytes.now) }
    {
        self.bytes.iter().all(|b| *b < 2)
    }

    // Whether each name is the same as itself.
    fn is_reflexive(&self) -> bool
        ensures { Decides result (Reflexive self.now.counts self.now.bytes.now) }
    {
        (0..self.counts.names()).all(|a| self.are_same(a, a))
    }

    // Whether what is the same as b is the same as a.
    fn goes_on(&self, a: u8, b: u8) -> bool
        requires { (a < self.now.counts.names) × (b < self.now.counts.names) }
        ensures { Decides result (Onward self.now.counts self.now.bytes.now a b) }
    {
        (0..self.counts.names()).all(|d| !self.are_same(b, d) || self.are_same(a, d))
    }

    // Whether no property tells a from b.
    fn like_properties(&self, a: u8, b: u8) -> bool
        requires { (a < self.now.counts.names) × (b < self.now.counts.names) }
        ensures { Decides result (LikeProperties self.now.counts self.now.bytes.now a b) }
    {
        (0..self.counts.properties()).all(|p| self.byte_of(Ground::Prop(p, a))
            == self.byte_of(Ground::Prop(p, b)))
    }

    // Whether relation r tells a from b in no place beside d.
    fn like_beside(&self, a: u8, b: u8, r: u8, d: u8) -> bool
        requires { (a < self.now.counts.names) × (b < self.now.counts.names) × (r < self.now.counts.relations) × (d < self.now.counts.names) }
        ensures { Decides result (LikeBeside self.now.counts self.now.bytes.now a b r d) }
    {
        self.byte_of(Ground::Rel(r, a, d)) == self.byte_of(Ground::Rel(r, b, d))
            && self.byte_of(Ground::Rel(r, d, a)) == self.byte_of(Ground::Rel(r, d, b))
    }

    // Whether relation r does not tell a from b.
    fn like_relation(&self, a: u8, b: u8, r: u8) -> bool
        requires { (a < self.now.counts.names) × (b < self.now.counts.names) × (r < self.now.counts.relations) }
        ensures { Decides result (LikeRelation self.now.counts self.now.bytes.now a b r) }
    {
        (0..self.counts.names()).all(|d| self.like_beside(a, b, r, d))
    }

    // Whether no relation tells a from b.
    fn like_relations(&self, a: u8, b: u8) -> bool
        requires { (a < self.now.counts.names) × (b < self.now.counts.names) }
        ensures { Decides result (LikeRelations self.now.counts self.now.bytes.now a b) }
    {
        (0..self.counts.relations()).all(|r| self.like_relation(a, b, r))
    }

    // Whether b is the same as a, and nothing tells them apart.
    fn are_alike(&self, a: u8, b: u8) -> bool
        requires { (a < self.now.counts.names) × (b < self.now.counts.names) }
        ensures { Decides result (Alike self.now.counts self.now.bytes.now a b) }
    {
        self.are_same(b, a)
            && self.goes_on(a, b)
            && self.like_properties(a, b)
            && self.like_relations(a, b)
    }

    // Whether a is alike to each name that is the same.
    fn like_its_own(&self, a: u8) -> bool
        requires { a < self.now.counts.names }
        ensures { Decides result (LikeOwn self.now.counts self.now.bytes.now a) }
    {
        (0..self.counts.names()).all(|b| !self.are_same(a, b) || self.are_alike(a, b))
    }

    // Whether names that are the same are alike.
    fn all_like(&self) -> bool
        ensures { Decides result (AllLike self.now.counts self.now.bytes.now) }
    {
        (0..self.counts.names()).all(|a| self.like_its_own(a))
    }

    // Whether the bytes are bits by which same is an equivalence that nothing tells apart.
    fn is_congruent(&self) -> bool
        ensures { Decides result (Tested self.now.counts self.now.bytes.now) }
    {
        self.are_bits() && self.is_reflexive() && self.all_like()
    }

    // The bytes of an interpretation over the counts; nothing where none has them.
    pub(crate) fn of(counts: Counts, bytes: &'a [u8]) -> Option<Candidate<'a>>
        ensures { Accepted counts bytes.now result }
    {
        if bytes.len() != atom_count(counts) {
            return None;
        }
        let candidate = Candidate { counts, bytes };
        candidate.is_congruent().then_some(candidate)
    }
}

// Whether some interpretation over the counts has these bytes.
pub fn is_interpretation(counts: Counts, bytes: &[u8]) -> bool
    ensures { Decides result ((I : Interpretation) × BytesOf counts I bytes.now) }
{
    Candidate::of(counts, bytes).is_some()
}
