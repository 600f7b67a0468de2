// A closed sheet with a program order.
ghost use Rattle.relation.specs.Meaning.{holds};
ghost use Rattle.sheet.specs.Sheets.{closed_book};
ghost use Rattle.execution.specs.Joins.{Joins};

use relation::Relation;
use sheet::closed::ClosedSheet;

// Program order is given apart, since a layer over a model hands down less of it. It joins events of the sheet only.
#[derive(Clone, Copy)]
pub struct Execution<'a> {
    pub(crate) sheet: &'a ClosedSheet,
    pub(crate) po: Relation,
    ghost within: { Joins (closed_book sheet.now).events (holds po) },
}
