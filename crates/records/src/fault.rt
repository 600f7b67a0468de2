// Why a file is refused, and where.
ghost use Rattle.std.specs.Prelude.{◌≡◌, Some};
ghost use Rattle.records.specs.Numbers.{layer, number, fault_text};

use std::fmt;

#[derive(Clone, Copy, PartialEq, Eq, Debug)]
pub enum Cause {
    // the file ends inside a record, or between records before the ending one
    Cut,
    // the input is longer than a program takes
    Oversize,
    // two bytes that are no mark
    UnknownMark,
    // a thread or an event after the first other record
    LateRow,
    // bytes after the ending record
    Trailing,
    // a question by no model, of no kind, or a settling with a completion
    BadQuestion,
}

// Each layer counts from 1, so the numbers are no discriminants of the enum. `casefile` has a `Cause` and a `Fault` of its own, which
// hold the sheet's refusals too; the reason stands there.
impl Cause {
    // The layer that found the fault: 1 is the input, 2 the records.
    pub fn layer(self) -> u8
        ensures { result ≡ layer self }
    {
        match self {
            Cause::Cut | Cause::Oversize => 1,
            Cause::UnknownMark | Cause::LateRow | Cause::Trailing | Cause::BadQuestion => 2,
        }
    }

    // The number of the cause in its layer.
    pub fn number(self) -> u8
        ensures { result ≡ number self }
    {
        match self {
            Cause::Cut => 1,
            Cause::Oversize => 2,
            Cause::UnknownMark => 1,
            Cause::LateRow => 2,
            Cause::Trailing => 3,
            Cause::BadQuestion => 4,
        }
    }
}

// A cause, and the place of the record's mark.
#[derive(Clone, Copy, PartialEq, Eq, Debug)]
pub struct Fault {
    pub cause: Cause,
    pub place: usize,
}

// `fault LAYER CAUSE PLACE`
impl fmt::Display for Fault {
    ghost output = { λ f. Some (fault_text f) };

    fn fmt<W: fmt::Write>(&self, f: &mut fmt::Formatter<W>) -> fmt::Result {
        let layer = self.cause.layer();
        let number = self.cause.number();
        let place = self.place;
        write!(f, "fault {layer} {number} {place}")
    }
}
