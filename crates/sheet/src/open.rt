// A sheet that still takes threads and events.
ghost use Rattle.std.specs.Prelude.{◌≡◌, length};
ghost use Rattle.sheet.specs.Book.{after, blank, given, refusal};
ghost use Rattle.sheet.specs.Sheets.{open_book, closed_book};
ghost use Rattle.sheet.specs.declared.calls.Call.TheVariants.{Thread as AddThread, Event as AddEvent, Close};

use crate::calls::Refusal;
use crate::closed::ClosedSheet;
use crate::edges::Edges;
use crate::row::{Event, Fields, Thread};
use crate::rules::{is_lawful, thread_fits};
use crate::tables::{EVENTS, Rows, THREADS};

#[derive(Drop)]
pub struct OpenSheet {
    pub(crate) rows: Rows,
}

impl OpenSheet {
    pub fn new() -> OpenSheet
        ensures { open_book result ≡ blank }
    {
        OpenSheet {
            rows: Rows {
                threads: [Thread::default(); THREADS],
                thread_count: 0,
                events: [Event::default(); EVENTS],
                event_count: 0,
            },
        }
    }

    // Adds a thread and tells its number.
    pub fn thread(&mut self, block: u8, device: u8) -> Result<u8, Refusal>
        ensures answers { result ≡ given (refusal (open_book self.old) (AddThread block device)) (length (open_book self.old).threads) }
        ensures book { open_book self.new ≡ after (open_book self.old) (AddThread block device) }
    {
        let n = self.rows.thread_count;
        if n >= THREADS {
            return Err(Refusal::Full);
        }
        if !thread_fits(&self.rows.threads[0..n], block, device) {
            return Err(Refusal::BadField);
        }
        self.rows.threads[n] = Thread { block, device };
        self.rows.thread_count = n + 1;
        Ok(n as u8)
    }

    // Adds an event and tells its number.
    pub fn event(&mut self, fields: Fields) -> Result<u8, Refusal>
        ensures answers { result ≡ given (refusal (open_book self.old) (AddEvent fields)) (length (open_book self.old).events) }
        ensures book { open_book self.new ≡ after (open_book self.old) (AddEvent fields) }
    {
        if fields.thread as usize >= self.rows.thread_count {
            return Err(Refusal::Absent);
        }
        let n = self.rows.event_count;
        if n >= EVENTS {
            return Err(Refusal::Full);
        }
        let event = Event::try_from(fields)?;
        if !is_lawful(event) {
            return Err(Refusal::BadField);
        }
        self.rows.events[n] = event;
        self.rows.event_count = n + 1;
        Ok(n as u8)
    }

    // The sheet with its threads and events fixed, and no edges yet.
    pub fn close(self) -> ClosedSheet
        ensures { closed_book result ≡ after (open_book self) Close }
    {
        let OpenSheet { rows } = self;
        ClosedSheet {
            rows,
            edges: Edges::none(),
        }
    }
}
