// The calls on a sheet, and why one is refused.
ghost use Rattle.std.specs.Prelude.{◌≡◌};
ghost use Rattle.sheet.specs.Refusals.{number as printed};

use crate::row::Fields;

// The four sorts of edges.
#[derive(Clone, Copy, PartialEq, Eq, Debug)]
pub enum Edge {
    ReadFrom,
    Order,
    Atomic,
    Depend,
}

// Why a call is refused. Its number is what a caller is told.
#[derive(Clone, Copy, PartialEq, Eq, Debug)]
pub enum Refusal {
    // a thread, an event or a completion that is named does not exist
    Absent = 1,
    // the sheet has 16 threads, or 64 events
    Full = 2,
    // a field breaks a rule
    BadField = 3,
    // the two events cannot carry this edge
    CannotCarry = 4,
    // source and read differ in value
    ValuesDiffer = 5,
    // the edge is there, the order is given the other way, or the read has a source
    Given = 6,
    // more than 12 pairs are open
    TooManyOpen = 7,
    // a read without a source has a value other than 0
    Unsourced = 8,
    // the caller's memory is too short
    Memory = 9,
}

impl From<Refusal> for u8 {
    ghost from_gives = { λ r n. n ≡ printed r };

    fn from(refusal: Refusal) -> u8 {
        refusal as u8
    }
}

// A call that builds a sheet. `Try` and `End` bound a trial.
#[derive(Clone, Copy)]
pub enum Call {
    // block and device
    Thread(u8, u8),
    Event(Fields),
    Close,
    // first and second event
    Lay(Edge, u8, u8),
    Try(u8, u8),
    End,
}
