// The numbers of a fault, and its line.
ghost use Rattle.std.specs.Prelude.{◌≡◌, Some};
ghost use Rattle.casefile.specs.Numbers.{layer, number, fault_text};

use crate::fault::{Cause, Fault};
use std::fmt;

// The layer of the sheet.
const SHEET: u8 = 3;

// Each layer counts from 1, so the numbers are no discriminants of the enum.
impl Cause {
    // The layer that found the fault: 1 is the input, 2 the records, 3 the sheet.
    pub fn layer(self) -> u8
        ensures { result ≡ layer self }
    {
        match self {
            Cause::Framing(cause) => cause.layer(),
            Cause::Sheet(_) => SHEET,
        }
    }

    // The number of the cause in its layer.
    pub fn number(self) -> u8
        ensures { result ≡ number self }
    {
        match self {
            Cause::Framing(cause) => cause.number(),
            Cause::Sheet(refusal) => u8::from(refusal),
        }
    }
}

// `fault LAYER CAUSE PLACE`, as in `records`: the two types of fault are apart, and so is their printing.
impl fmt::Display for Fault {
    ghost output = { λ f. Some (fault_text f) };

    fn fmt<W: fmt::Write>(&self, f: &mut fmt::Formatter<W>) -> fmt::Result {
        let layer = self.cause.layer();
        let number = self.cause.number();
        let place = self.place;
        write!(f, "fault {layer} {number} {place}")
    }
}
