#![tactic(auto)]
// Reads a rule book's text from standard input and prints one line.
use listing::take_in;
use std::io;
use std::io::Read;

fn main(rt: HostRuntime) -> io::Result<()> {
    let mut text = Vec::new(rt.alloc());
    rt.stdin().take(32769).read_to_end(&mut text)?;
    match take_in(&text) {
        Ok(intake) => {
            println!(rt;
                "read {} bytes in {} lines; judging is not there yet",
                intake.bytes, intake.lines
            )
        }
        Err(refusal) => println!(rt; "fault {refusal}"),
    }
}
