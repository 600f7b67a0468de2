// Sets of events by kind, grade and proxy.
ghost use Rattle.std.specs.Prelude.{◌≡◌};
ghost use Rattle.execution.specs.Classes.{in_class, releases, acquires};

use sheet::row::Event;
use sheet::words::{Grade, Kind, Proxy};

#[derive(Clone, Copy)]
pub enum Class {
    Read,
    Write,
    // a read or a write
    Access,
    // neither
    NonAccess,
    ReleaseWrite,
    AcquireRead,
    // a memory fence of grade release, acquire-release or SC
    ReleaseFence,
    // a memory fence of grade acquire, acquire-release or SC
    AcquireFence,
    // a memory fence of grade SC
    ScFence,
    ProxyFence,
    Generic,
    NonGeneric,
}

fn releases(grade: Grade) -> bool
    ensures { result ≡ releases grade }
{
    matches!(grade, Grade::Release | Grade::AcquireRelease | Grade::Sc)
}

fn acquires(grade: Grade) -> bool
    ensures { result ≡ acquires grade }
{
    matches!(grade, Grade::Acquire | Grade::AcquireRelease | Grade::Sc)
}

impl Class {
    // Whether the event is of this class.
    pub fn has(self, e: Event) -> bool
        ensures { result ≡ in_class self e }
    {
        match self {
            Class::Read => e.kind == Kind::Read,
            Class::Write => e.kind == Kind::Write,
            Class::Access => matches!(e.kind, Kind::Read | Kind::Write),
            Class::NonAccess => matches!(e.kind, Kind::MemoryFence | Kind::ProxyFence),
            Class::ReleaseWrite => e.kind == Kind::Write && releases(e.grade),
            Class::AcquireRead => e.kind == Kind::Read && acquires(e.grade),
            Class::ReleaseFence => e.kind == Kind::MemoryFence && releases(e.grade),
            Class::AcquireFence => e.kind == Kind::MemoryFence && acquires(e.grade),
            Class::ScFence => e.kind == Kind::MemoryFence && e.grade == Grade::Sc,
            Class::ProxyFence => e.kind == Kind::ProxyFence,
            Class::Generic => e.proxy == Proxy::Generic,
            Class::NonGeneric => e.proxy != Proxy::Generic,
        }
    }
}
