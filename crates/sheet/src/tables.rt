// The plain tables of threads and events.
ghost use Rattle.std.specs.Prelude.{◌≡◌, ◌≤◌, length};
ghost use Rattle.sheet.specs.Fitting.{ThreadsFit, EventsFit};

use crate::row::{Event, Thread};

pub const THREADS: usize = 16;

pub const EVENTS: usize = 64;

// The form that is asked for stores through plain tables of fixed size, each with its count beside it.
// The first `thread_count` threads and `event_count` events are the sheet's. Each broke no rule when it came.
#[derive(Drop)]
pub struct Rows {
    pub(crate) threads: [Thread; THREADS],
    pub(crate) thread_count: usize,
    pub(crate) events: [Event; EVENTS],
    pub(crate) event_count: usize,
    ghost few: { (thread_count ≤ 16) × (event_count ≤ 64) },
    ghost long: { (length threads ≡ 16) × (length events ≡ 64) },
    ghost threads_fit: { ThreadsFit threads thread_count },
    ghost events_fit: { EventsFit thread_count events event_count },
}
