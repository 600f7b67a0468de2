// A sheet with its threads and events fixed, which takes edges.
ghost use Rattle.std.specs.Prelude.{take};
ghost use Rattle.sheet.specs.Sets.{laid};
ghost use Rattle.sheet.specs.Fitting.{EdgesFit, OneSource, OneWay};

use crate::edges::Edges;
use crate::tables::Rows;

#[derive(Drop)]
pub struct ClosedSheet {
    pub(crate) rows: Rows,
    pub(crate) edges: Edges,
    ghost edges_fit: { EdgesFit (take rows.event_count rows.events) (laid edges) },
    ghost one_source: { OneSource (laid edges) },
    ghost one_way: { OneWay (laid edges) },
}
