// What PTX prepares for a sheet, and lays out under an order.
use crate::crossing::Crossing;
use execution::reading::{Coherence, Reading};
use relation::{Relation, Row};

#[derive(Clone, Copy)]
pub struct Basis {
    pub(crate) reading: Reading,
    pub(crate) rf: Relation,
    pub(crate) atomic: Relation,
    // read-from and dependency
    pub(crate) thin_air: Relation,
    pub(crate) strong: Relation,
    pub(crate) poloc: Relation,
    pub(crate) rivals: Relation,
    // chains of observation
    pub(crate) seen: Relation,
    // program order and synchronisation
    pub(crate) fixed: Relation,
    // the SC fences
    pub(crate) fences: Row,
    // how base pairs cross proxies, if that matters
    pub(crate) crossing: Option<Crossing>,
}

#[derive(Clone, Copy)]
pub struct Causality {
    pub(crate) coherence: Coherence,
    pub(crate) comm: Relation,
    pub(crate) cause: Relation,
}
