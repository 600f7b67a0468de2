// What an execution tells a model.
ghost use Rattle.std.specs.Prelude.{◌≡◌};
ghost use Rattle.relation.specs.Algebra.{◌∩◌};
ghost use Rattle.relation.specs.Meaning.{members, holds};
ghost use Rattle.sheet.specs.Sheets.{closed_book};
ghost use Rattle.execution.specs.Classes.{those};
ghost use Rattle.execution.specs.Facts.{facts, facts_of, with_po};
ghost use Rattle.execution.specs.Ties.{tied};

use crate::class::Class;
use crate::execution::Execution;
use crate::tie::{Tie, Tied};
use relation::{Pairs, Relation, Row, tabulate};
use sheet::calls::Edge;
use sheet::closed::ClosedSheet;

// The events of a class.
pub fn class(sheet: &ClosedSheet, class: Class) -> Row
    ensures { members result ≡ those (closed_book sheet.now).events class }
{
    let mut all = Row::empty();
    for (i, e) in sheet.events().iter().enumerate() {
        all = all.union(Row::of(i).only_if(class.has(*e)));
    }
    all
}

// The pairs of events with a tie.
pub fn tied(sheet: &ClosedSheet, tie: Tie) -> Relation
    ensures { holds result ≡ tied (closed_book sheet.now).threads (closed_book sheet.now).events tie }
{
    tabulate(&Tied { sheet, tie }, sheet.events().len())
}

// Whether a is an event of the class; of one event, no row is laid out. Sheet and events stand apart: a struct of them would be taken
// apart at once.
pub fn is_of(sheet: &ClosedSheet, class: Class, a: usize) -> bool
    ensures { result ≡ those (closed_book sheet.now).events class a }
{
    sheet.events().get(a).is_some_and(|e| class.has(*e))
}

// Whether a and b are events with the tie.
pub fn is_tied(sheet: &ClosedSheet, tie: Tie, a: usize, b: usize) -> bool
    ensures { result ≡ tied (closed_book sheet.now).threads (closed_book sheet.now).events tie a b }
{
    Tied { sheet, tie }.related(a, b)
}

impl<'a> Execution<'a> {
    // The execution that a sheet is.
    pub fn of(sheet: &'a ClosedSheet) -> Execution<'a>
        ensures { facts result ≡ facts_of (closed_book sheet.now) }
    {
        Execution {
            sheet,
            po: tied(sheet, Tie::ProgramOrder),
        }
    }

    // The same with only those pairs of program order that are kept.
    pub fn cut_po(&self, kept: &Relation) -> Execution<'a>
        ensures { facts result ≡ with_po (facts self.now) ((facts self.now).po ∩ holds kept.now) }
    {
        Execution {
            sheet: self.sheet,
            po: self.po.intersection(kept),
        }
    }

    // The sheet, for its threads and events.
    pub fn sheet(&self) -> &'a ClosedSheet
        ensures { closed_book result.now ≡ closed_book self.now.sheet.now }
    {
        self.sheet
    }

    // Program order.
    pub fn po(&self) -> &Relation
        ensures { holds result.now ≡ (facts self.now).po }
    {
        &self.po
    }

    // From a write to a read of it.
    pub fn rf(&self) -> &Relation
        ensures { holds result.now ≡ (facts self.now).rf }
    {
        self.sheet.edges().of(Edge::ReadFrom)
    }

    // The order of writes and of SC fences, as far as it is given.
    pub fn order(&self) -> &Relation
        ensures { holds result.now ≡ (facts self.now).order }
    {
        self.sheet.edges().of(Edge::Order)
    }

    // From the read to the write of an atomic step.
    pub fn atomic(&self) -> &Relation
        ensures { holds result.now ≡ (facts self.now).atomic }
    {
        self.sheet.edges().of(Edge::Atomic)
    }

    // From a read to what depends on it.
    pub fn depend(&self) -> &Relation
        ensures { holds result.now ≡ (facts self.now).depend }
    {
        self.sheet.edges().of(Edge::Depend)
    }
}
