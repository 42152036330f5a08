#![tactic(auto)]
// The work behind the program `sure`, on values. The listing itself is not there yet: a text is taken
// in and measured.
ghost use Rattle.listing.specs.Intake.{TakenIn};

use syntax::types::{Place, Refusal};

pub mod intake;

use intake::Intake;

// Takes a text in: how many bytes and lines it has, or refused as cause 14 at line 0, word 0 where it
// has more than 32,768 bytes.
pub fn take_in(text: &[u8]) -> Result<Intake, Refusal>
    ensures { TakenIn text.now result }
{
    if text.len() > 32768 {
        return Err(Refusal::TextFault(Place::default()));
    }
    // Byte 10 ends a line; a last line without it counts too.
    let mut ends = 0;
    // A `for`: as `filter` and `count` it takes almost twice the instructions.
    for b in text {
        ends += usize::from(*b == b'\n');
    }
    let begun = text.last().is_some_and(|b| *b != b'\n');
    Ok(Intake {
        bytes: text.len(),
        lines: ends + usize::from(begun),
    })
}

#[cfg(test)]
mod tests {
    use super::*;
    use std::test::Fail;

    #[test]
    fn counts_lines(rt: HostRuntime) -> Result<(), Fail> {
        assert!(rt; take_in(b"")?.lines == 0);
        assert!(rt; take_in(b"\n")?.lines == 1);
        assert!(rt; take_in(b"names a b")?.lines == 1);
        assert!(rt; take_in(b"names a b\n")?.lines == 1);
        assert!(rt; take_in(b"names a\n\nsub P Q")?.lines == 3);
        assert!(rt; take_in(b"names a\n\nsub P Q")?.bytes == 16);
        Ok(())
    }

    #[test]
    fn refuses_a_long_text(rt: HostRuntime) -> Result<(), Fail> {
        let text = [97u8; 32769];
        assert!(rt; take_in(&text[0..32768]).is_ok());
        assert!(rt; take_in(&text).err() == Some(Refusal::TextFault(Place { line: 0, word: 0 })));
        Ok(())
    }
}
