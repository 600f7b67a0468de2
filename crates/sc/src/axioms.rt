// The two axioms of sequential consistency.
ghost use Rattle.std.specs.Prelude.{◌≡◌};
ghost use Rattle.relation.specs.Algebra.{◌∪◌, ◌∩◌, ◌⨾◌};
ghost use Rattle.relation.specs.Meaning.{holds};
ghost use Rattle.sc.specs.Sc.{sc_meaning};
ghost use Rattle.sc.specs.Prepared.{yielded, shown};
ghost use Rattle.sc.specs.Laws.{sc_lawful};

use crate::basis::Basis;
use execution::execution::Execution;
use execution::reading::{Coherence, Reading, are_rivals};
use model::axiom_kind::AxiomKind;
use model::interface::MemoryModel;
use relation::Relation;
use sheet::closed::ClosedSheet;

#[derive(Clone, Copy)]
pub struct Sc;

// Axiom 0: program order, read-from, coherence order and from-read.
fn sequence(b: &Basis, c: &Coherence) -> Relation
    ensures { holds result ≡ holds b.now.fixed ∪ holds c.now.co ∪ holds c.now.fr }
{
    b.fixed.union(&c.co).union(&c.fr)
}

// Axiom 1: a write between the two events of an atomic step.
fn torn(b: &Basis, c: &Coherence) -> Relation
    ensures { holds result ≡ (holds c.now.fr ⨾ holds c.now.co_plus) ∩ holds b.now.atomic }
{
    c.fr.then(&c.co_plus).intersection(&b.atomic)
}

impl MemoryModel for Sc {
    type Prepared = Basis;

    type Laid = Coherence;

    ghost meaning = { λ _. sc_meaning };

    ghost yields = { yielded };

    ghost shows = { shown };

    ghost lawful = { λ m. sc_lawful };

    fn axioms(&self) -> usize {
        2
    }

    fn kind(&self, number: usize) -> AxiomKind {
        match number {
            0 => AxiomKind::Acyclic,
            _ => AxiomKind::Empty,
        }
    }

    fn needs(&self, sheet: &ClosedSheet, a: usize, b: usize) -> bool {
        are_rivals(sheet, a, b)
    }

    fn prepare(&self, x: &Execution) -> Basis {
        Basis {
            reading: Reading::of(x),
            fixed: x.po().union(x.rf()),
            atomic: *x.atomic(),
        }
    }

    fn lay(&self, prepared: &Basis, order: &Relation) -> Coherence {
        prepared.reading.under(order)
    }

    fn relation(&self, prepared: &Basis, laid: &Coherence, number: usize) -> Relation {
        match number {
            0 => sequence(prepared, laid),
            1 => torn(prepared, laid),
            _ => Relation::empty(),
        }
    }
}
