// The marks of records, and how far a file has come.
ghost use Rattle.std.specs.Prelude.{◌≡◌};
ghost use Rattle.records.specs.Format.{size};

#[derive(Clone, Copy, PartialEq, Eq, Debug)]
pub enum Mark {
    // TH
    Thread,
    // EV
    Event,
    // RF
    ReadFrom,
    // OR
    Order,
    // AT
    Atomic,
    // DE
    Depend,
    // QU
    Question,
    // EN
    End,
}

impl Mark {
    // How many bytes the body has.
    pub fn size(self) -> usize
        ensures { result ≡ size self }
    {
        match self {
            Mark::Thread => 2,
            Mark::Event => 11,
            Mark::ReadFrom | Mark::Order | Mark::Atomic | Mark::Depend => 2,
            Mark::Question => 4,
            Mark::End => 0,
        }
    }
}

// What stands where a mark is due.
#[derive(Clone, Copy)]
pub enum Sign {
    Known(Mark),
    // two bytes that are no mark
    Unknown,
    // one byte
    Half,
    Nothing,
}

// How far a file has come: its threads and events, then its edges and questions, then its end.
#[derive(Clone, Copy, PartialEq, Eq, Debug)]
pub enum Phase {
    Rows,
    Edges,
    Ended,
}

// A record of a file: its body is a part of the file, and its place is that of its mark.
#[derive(Clone, Copy)]
pub struct Record<'a> {
    pub mark: Mark,
    pub body: &'a [u8],
    pub place: usize,
}
