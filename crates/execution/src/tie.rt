// Relations between events by their rows.
ghost use Rattle.std.specs.Prelude.{◌≡◌};
ghost use Rattle.sheet.specs.Sheets.{closed_book};
ghost use Rattle.execution.specs.Ties.{thread_of, covers, ties, tied};

use crate::class::Class;
use relation::Pairs;
use sheet::closed::ClosedSheet;
use sheet::row::{Event, Thread};
use sheet::words::Scope;

// An enum in place of a closure, since the specification names each tie.
#[derive(Clone, Copy)]
pub enum Tie {
    // of one thread, the lower number first
    ProgramOrder,
    // reads and writes of one address
    Location,
    // the scope of each covers the thread of the other
    Strong,
    SameProxy,
    SameBlock,
    // an event with itself
    Itself,
}

// The thread of an event.
fn thread_of(threads: &[Thread], e: Event) -> Thread
    ensures { result ≡ thread_of threads.now e }
{
    threads.get(e.thread as usize).copied().unwrap_or_default()
}

// Whether the scope of `e` covers the thread of `f`.
fn covers(threads: &[Thread], e: Event, f: Event) -> bool
    ensures { result ≡ covers threads.now e f }
{
    let a = thread_of(threads, e);
    let b = thread_of(threads, f);
    match e.scope {
        Scope::Thread => e.thread == f.thread,
        Scope::Block => a.block == b.block,
        Scope::Device => a.device == b.device,
        Scope::System => true,
    }
}

// An event and its number.
#[derive(Clone, Copy)]
struct Numbered {
    number: usize,
    event: Event,
}

impl Tie {
    // Whether event `a` has this tie to event `b`.
    fn joins(self, threads: &[Thread], a: Numbered, b: Numbered) -> bool
        ensures { result ≡ ties self threads.now a.number a.event b.number b.event }
    {
        let (e, f) = (a.event, b.event);
        match self {
            Tie::ProgramOrder => a.number < b.number && e.thread == f.thread,
            Tie::Location => Class::Access.has(e) && Class::Access.has(f) && e.address == f.address,
            Tie::Strong => covers(threads, e, f) && covers(threads, f, e),
            Tie::SameProxy => e.proxy == f.proxy,
            Tie::SameBlock => thread_of(threads, e).block == thread_of(threads, f).block,
            Tie::Itself => a.number == b.number,
        }
    }
}

// A tie between the events of a sheet, as a test of two event numbers.
#[derive(Clone, Copy)]
pub(crate) struct Tied<'a> {
    pub(crate) sheet: &'a ClosedSheet,
    pub(crate) tie: Tie,
}

impl Pairs for Tied<'_> {
    ghost relates = { λ s. tied (closed_book s.sheet.now).threads (closed_book s.sheet.now).events s.tie };

    fn related(&self, i: usize, j: usize) -> bool {
        let events = self.sheet.events();
        let (Some(e), Some(f)) = (events.get(i), events.get(j)) else {
            return false;
        };
        let a = Numbered {
            number: i,
            event: *e,
        };
        let b = Numbered {
            number: j,
            event: *f,
        };
        self.tie.joins(self.sheet.threads(), a, b)
    }
}
