// The bytes of a would-be interpretation over the counts: one byte for each ground atom.
ghost use Rattle.std.specs.Prelude.{◌≡◌, length};
ghost use Rattle.syntax.specs.Numbers.{atoms};

use syntax::counts::Counts;

#[derive(Clone, Copy)]
pub(crate) struct Candidate<'a> {
    pub(crate) counts: Counts,
    pub(crate) bytes: &'a [u8],
    ghost whole: { length bytes.now ≡ atoms counts },
}
