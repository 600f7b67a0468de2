// Why a case file is refused, and where.
ghost use Rattle.std.specs.Prelude.{◌≡◌};
ghost use Rattle.casefile.specs.declared.fault.Cause.TheVariants.{Framing, Sheet as BySheet};

use records::fault::{Cause as RecordCause, Fault as RecordFault};
use sheet::calls::Refusal;

#[derive(Clone, Copy, PartialEq, Eq, Debug)]
pub enum Cause {
    // the records are broken
    Framing(RecordCause),
    // the sheet refuses a record's call
    Sheet(Refusal),
}

impl From<Refusal> for Cause {
    ghost from_gives = { λ e c. c ≡ BySheet e };

    fn from(e: Refusal) -> Cause {
        Cause::Sheet(e)
    }
}

// A cause, and the place of the record's mark.
// A struct of its own: one `Fault<C>` in `records`, with a trait of causes and a turn by hand at each `?`, takes 4 lines more.
#[derive(Clone, Copy, PartialEq, Eq, Debug)]
pub struct Fault {
    pub cause: Cause,
    pub place: usize,
}

impl From<RecordFault> for Fault {
    ghost from_gives = { λ e f. f ≡ record { cause = Framing e.cause; place = e.place } };

    fn from(e: RecordFault) -> Fault {
        Fault {
            cause: Cause::Framing(e.cause),
            place: e.place,
        }
    }
}
