// The rows of a sheet.
ghost use Rattle.std.specs.Prelude.{◌≡◌};
ghost use Rattle.std.specs.Option.{ok_or};
ghost use Rattle.sheet.specs.Rules.{decoded};
ghost use Rattle.sheet.specs.declared.calls.Refusal.TheVariants.{BadField};

use crate::calls::Refusal;
use crate::words::{Grade, Kind, Proxy, Scope};

#[derive(Clone, Copy, Default)]
pub struct Thread {
    pub block: u8,
    pub device: u8,
}

#[derive(Clone, Copy, Default)]
pub struct Event {
    pub thread: u8,
    pub kind: Kind,
    pub grade: Grade,
    pub scope: Scope,
    pub proxy: Proxy,
    pub address: u16,
    pub value: u32,
}

// An event as it is given: its words by their codes, which may be none. The sheet refuses those by a number, so they are no enums
// yet.
#[derive(Clone, Copy)]
pub struct Fields {
    pub thread: u8,
    pub kind: u8,
    pub grade: u8,
    pub scope: u8,
    pub proxy: u8,
    pub address: u16,
    pub value: u32,
}

// The event that fields stand for, if each code is one.
impl TryFrom<Fields> for Event {
    type Error = Refusal;

    ghost try_from_gives = { λ f r. r ≡ ok_or (decoded f) BadField };

    fn try_from(fields: Fields) -> Result<Event, Refusal> {
        Ok(Event {
            thread: fields.thread,
            kind: Kind::try_from(fields.kind)?,
            grade: Grade::try_from(fields.grade)?,
            scope: Scope::try_from(fields.scope)?,
            proxy: Proxy::try_from(fields.proxy)?,
            address: fields.address,
            value: fields.value,
        })
    }
}
