// Reads a case file from standard input and prints what it has, or its first fault.
#![tactic(auto)]

ghost use Rattle.std.specs.Prelude.{◌≡◌};
ghost use Rattle.verdict.specs.Answer.{Answers};

mod line;

use casefile::fault::{Cause, Fault};
use casefile::input::read;
use line::Line;
use records::fault::Cause as RecordCause;
use records::survey::{Tally, survey};
use std::io;
use std::io::Read;

// The longest input that is taken.
const LIMIT: usize = 32768;

// What the bytes of an input are answered.
fn answer(input: &[u8]) -> Result<Tally, Fault>
    ensures { Answers input.now result }
{
    if input.len() > LIMIT {
        return Err(Fault {
            cause: Cause::Framing(RecordCause::Oversize),
            place: LIMIT,
        });
    }
    read(input)?;
    Ok(survey(input)?)
}

fn main(rt: HostRuntime) -> io::Result<()> {
    let mut input = Vec::new(rt.alloc());
    // One byte more than is taken, to see that there is one.
    rt.stdin().take(LIMIT as u64 + 1).read_to_end(&mut input)?;
    let line = Line(answer(input.as_slice()));
    println!(rt; "{line}")
}
