// Coherence order and from-read, which every model shares. What they rest on besides the order is prepared once.
ghost use Rattle.std.specs.Prelude.{◌≡◌};
ghost use Rattle.relation.specs.Meaning.{holds};
ghost use Rattle.sheet.specs.Sheets.{closed_book};
ghost use Rattle.execution.specs.Facts.{facts};
ghost use Rattle.execution.specs.Readings.{Reads, Coheres, co_by, fr_by};
ghost use Rattle.execution.specs.Words.{rivals};

use crate::class::Class;
use crate::execution::Execution;
use crate::facts::{class, is_of, is_tied, tied};
use crate::tie::Tie;
use relation::{Relation, Row};
use sheet::closed::ClosedSheet;

#[derive(Clone, Copy)]
pub struct Reading {
    pub writes: Row,
    // a read and a write of its address
    pub near: Relation,
    // the same for the reads without a source
    pub unsourced: Relation,
    // from a read to its source
    pub source: Relation,
}

// Communication between writes, and from reads to writes, under an order.
#[derive(Clone, Copy)]
pub struct Coherence {
    pub co: Relation,
    // the closure of coherence order
    pub co_plus: Relation,
    pub fr: Relation,
}

impl Reading {
    pub fn of(x: &Execution) -> Reading
        ensures { Reads result (facts x.now) }
    {
        let reads = class(x.sheet, Class::Read);
        let writes = class(x.sheet, Class::Write);
        let loc = tied(x.sheet, Tie::Location);
        Reading {
            writes,
            near: loc.from(reads).to(writes),
            unsourced: loc.from(reads.difference(x.rf().range())).to(writes),
            source: x.rf().inverse(),
        }
    }

    // Coherence order under an order.
    pub fn co(&self, order: &Relation) -> Relation
        ensures { holds result ≡ co_by self.now (holds order.now) }
    {
        order.from(self.writes).to(self.writes)
    }

    // From-read, by the closure of coherence order.
    pub fn fr(&self, co_plus: &Relation) -> Relation
        ensures { holds result ≡ fr_by self.now (holds co_plus.now) }
    {
        self.unsourced
            .union(&self.near.intersection(&self.source.then(co_plus)))
    }

    // Coherence order, its closure and from-read under an order.
    pub fn under(&self, order: &Relation) -> Coherence
        ensures { Coheres result self.now (holds order.now) }
    {
        let co = self.co(order);
        let co_plus = co.plus();
        let fr = self.fr(&co_plus);
        Coherence { co, co_plus, fr }
    }
}

// Different writes to one address.
#[tactic(auto, unfolding(crate::specs::Words::rivals))]
pub fn rivals(sheet: &ClosedSheet) -> Relation
    ensures { holds result ≡ rivals (closed_book sheet.now).threads (closed_book sheet.now).events }
{
    let writes = class(sheet, Class::Write);
    tied(sheet, Tie::Location)
        .from(writes)
        .to(writes)
        .difference(&tied(sheet, Tie::Itself))
}

// Whether a and b are different writes to one address; of one pair, no relation is laid out.
pub fn are_rivals(sheet: &ClosedSheet, a: usize, b: usize) -> bool
    ensures { result ≡ rivals (closed_book sheet.now).threads (closed_book sheet.now).events a b }
{
    is_of(sheet, Class::Write, a)
        & is_tied(sheet, Tie::Location, a, b)
        & is_of(sheet, Class::Write, b)
        & !is_tied(sheet, Tie::Itself, a, b)
}
