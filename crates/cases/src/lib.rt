// A row of parts, each behind its length in two bytes, low byte first, as the programs that run stored cases read them.
#![tactic(auto)]

ghost use Rattle.std.specs.Prelude.{◌≡◌, length};
ghost use Rattle.std.specs.Iterator.{at_most};
ghost use Rattle.cases.specs.Parts.{Handed};

// Hands out the parts up to the first that is cut.
#[derive(Drop)]
pub struct Cases<'a> {
    rest: &'a [u8],
}

impl<'a> Cases<'a> {
    pub fn new(input: &'a [u8]) -> Cases<'a>
        ensures { result.rest.now ≡ input.now }
    {
        Cases { rest: input }
    }
}

impl<'a> Iterator for Cases<'a> {
    type Item = &'a [u8];

    ghost next_gives = { λ old part new. Handed old.rest.now part new.rest.now };

    ghost remaining = { λ cases. at_most (length cases.rest.now) };

    fn next(&mut self) -> Option<&'a [u8]> {
        let [low, high, after @ ..] = self.rest else {
            return None;
        };
        let size = u16::from_le_bytes([*low, *high]) as usize;
        let (part, rest) = after.split_at_checked(size)?;
        self.rest = rest;
        Some(part)
    }
}
