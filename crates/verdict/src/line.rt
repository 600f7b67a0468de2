// The line that the program prints.
ghost use Rattle.std.specs.Prelude.{Some};
ghost use Rattle.verdict.specs.Text.{line_text};

use casefile::fault::Fault;
use records::survey::Tally;
use std::fmt;

// What a whole file has, or its first fault.
#[derive(Clone, Copy)]
pub struct Line(pub Result<Tally, Fault>);

impl fmt::Display for Line {
    ghost output = { λ line. Some (line_text line.0) };

    fn fmt<W: fmt::Write>(&self, f: &mut fmt::Formatter<W>) -> fmt::Result {
        match self.0 {
            Ok(tally) => write!(f, "{tally}"),
            Err(fault) => write!(f, "{fault}"),
        }
    }
}
