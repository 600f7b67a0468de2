// Edges laid on a closed sheet.
ghost use Rattle.std.specs.Prelude.{◌≡◌, ◌<◌, length};
ghost use Rattle.sheet.specs.Book.{after, both_known, given, refusal};
ghost use Rattle.sheet.specs.Rules.{carries, values_differ};
ghost use Rattle.sheet.specs.Sets.{laid};
ghost use Rattle.sheet.specs.Sheets.{closed_book};
ghost use Rattle.sheet.specs.declared.calls.Call.TheVariants.{Lay};
ghost use Rattle.sheet.specs.declared.calls.Edge.TheVariants.{ReadFrom, Order, Atomic, Depend};

use crate::calls::{Edge, Refusal};
use crate::closed::ClosedSheet;
use crate::edges::Edges;
use crate::row::{Event, Thread};
use crate::rules::{can_depend, can_join, can_order, can_read_from, is_next};

// The sort of an edge and its two events stand apart: each caller has them so, and a struct would be taken apart at once.
impl ClosedSheet {
    pub fn threads(&self) -> &[Thread]
        ensures { result.now ≡ (closed_book self.now).threads }
    {
        &self.rows.threads[0..self.rows.thread_count]
    }

    pub fn events(&self) -> &[Event]
        ensures { result.now ≡ (closed_book self.now).events }
    {
        let count = self.rows.event_count;
        &self.rows.events[0..count]
    }

    pub fn edges(&self) -> &Edges
        ensures { laid result.now ≡ (closed_book self.now).edges }
    {
        &self.edges
    }

    fn both_known(&self, first: u8, second: u8) -> bool
        ensures { result ≡ both_known (closed_book self.now).events first second }
    {
        let n = self.events().len();
        (first as usize) < n && (second as usize) < n
    }

    // Whether the two events can carry the edge, values apart.
    #[tactic(auto, unfolding(crate::specs::Rules::carries))]
    fn can_carry(&self, edge: Edge, first: u8, second: u8) -> bool
        requires { (first < length (closed_book self.now).events) × (second < length (closed_book self.now).events) }
        ensures { result ≡ carries (closed_book self.now).events edge first second }
    {
        let events = self.events();
        let i = first as usize;
        let j = second as usize;
        let e = events[i];
        let f = events[j];
        match edge {
            Edge::ReadFrom => can_read_from(e, f),
            Edge::Order => i != j && can_order(e, f),
            Edge::Atomic => can_join(e, f) && is_next(events, i, j),
            Edge::Depend => can_depend(e, f) && i < j,
        }
    }

    // Whether source and read differ in value.
    #[tactic(auto, unfolding(crate::specs::Rules::values_differ))]
    fn differs(&self, edge: Edge, first: u8, second: u8) -> bool
        requires { (first < length (closed_book self.now).events) × (second < length (closed_book self.now).events) }
        ensures { result ≡ values_differ (closed_book self.now).events edge first second }
    {
        let events = self.events();
        edge == Edge::ReadFrom && events[first as usize].value != events[second as usize].value
    }
}

impl ClosedSheet {
    // Whether the edge may be laid.
    fn check(&self, edge: Edge, first: u8, second: u8) -> Result<(), Refusal>
        ensures { result ≡ given (refusal (closed_book self.now) (Lay edge first second)) tt }
    {
        if !self.both_known(first, second) {
            return Err(Refusal::Absent);
        }
        if !self.can_carry(edge, first, second) {
            return Err(Refusal::CannotCarry);
        }
        if self.differs(edge, first, second) {
            return Err(Refusal::ValuesDiffer);
        }
        if self.edges.gives(edge, first as usize, second as usize) {
            return Err(Refusal::Given);
        }
        Ok(())
    }

    // Lays the edge, if it may be laid. Each sort of edge gets a copy of its own in what follows, with the checks of that sort alone.
    #[inline(always)]
    pub fn lay(&mut self, edge: Edge, first: u8, second: u8) -> Result<(), Refusal>
        ensures answers { result ≡ given (refusal (closed_book self.old) (Lay edge first second)) tt }
        ensures book { closed_book self.new ≡ after (closed_book self.old) (Lay edge first second) }
    {
        self.check(edge, first, second)?;
        self.edges.add(edge, first as usize, second as usize);
        Ok(())
    }

    // The read takes its value from the write.
    pub fn read_from(&mut self, write: u8, read: u8) -> Result<(), Refusal>
        ensures answers { result ≡ given (refusal (closed_book self.old) (Lay ReadFrom write read)) tt }
        ensures book { closed_book self.new ≡ after (closed_book self.old) (Lay ReadFrom write read) }
    {
        self.lay(Edge::ReadFrom, write, read)
    }

    // The first of two writes or two SC fences comes before the second.
    pub fn order(&mut self, first: u8, second: u8) -> Result<(), Refusal>
        ensures answers { result ≡ given (refusal (closed_book self.old) (Lay Order first second)) tt }
        ensures book { closed_book self.new ≡ after (closed_book self.old) (Lay Order first second) }
    {
        self.lay(Edge::Order, first, second)
    }

    // The read and the next event of its thread are one atomic step.
    pub fn atomic(&mut self, read: u8, write: u8) -> Result<(), Refusal>
        ensures answers { result ≡ given (refusal (closed_book self.old) (Lay Atomic read write)) tt }
        ensures book { closed_book self.new ≡ after (closed_book self.old) (Lay Atomic read write) }
    {
        self.lay(Edge::Atomic, read, write)
    }

    // A later event of its thread depends on the read.
    pub fn depend(&mut self, read: u8, event: u8) -> Result<(), Refusal>
        ensures answers { result ≡ given (refusal (closed_book self.old) (Lay Depend read event)) tt }
        ensures book { closed_book self.new ≡ after (closed_book self.old) (Lay Depend read event) }
    {
        self.lay(Edge::Depend, read, event)
    }

    // Whether an order may be given, and so whether a trial of it can be made.
    pub fn check_order(&self, first: u8, second: u8) -> Result<(), Refusal>
        ensures { result ≡ given (refusal (closed_book self.now) (Lay Order first second)) tt }
    {
        self.check(Edge::Order, first, second)
    }
}
