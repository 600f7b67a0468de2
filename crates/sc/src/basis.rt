// What sequential consistency prepares for a sheet.
use execution::reading::Reading;
use relation::Relation;

#[derive(Clone, Copy)]
pub struct Basis {
    pub(crate) reading: Reading,
    // program order and read-from
    pub(crate) fixed: Relation,
    pub(crate) atomic: Relation,
}
