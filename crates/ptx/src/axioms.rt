// The six axioms of PTX.
ghost use Rattle.std.specs.Prelude.{◌≡◌};
ghost use Rattle.relation.specs.Algebra.{◌∪◌, ◌∩◌, ◌∖◌, ◌⨾◌};
ghost use Rattle.relation.specs.Meaning.{holds};
ghost use Rattle.sheet.specs.Sheets.{closed_book};
ghost use Rattle.ptx.specs.Axioms.{ptx_meaning};
ghost use Rattle.ptx.specs.Prepared.{yielded, shown, cause_by};
ghost use Rattle.ptx.specs.Ptx.{fence_pairs};
ghost use Rattle.ptx.specs.Laws.{ptx_lawful};

use crate::basis::{Basis, Causality};
use crate::crossing::{Crossing, counted};
use crate::flavour::Ptx;
use crate::syncing::{ends, obs, starts, sync};
use execution::class::Class;
use execution::execution::Execution;
use execution::facts::{class, is_of, is_tied};
use execution::reading::{Reading, are_rivals, rivals};
use execution::tie::Tie;
use model::axiom_kind::AxiomKind;
use model::interface::MemoryModel;
use relation::Relation;
use sheet::closed::ClosedSheet;

// Causality order under an order of writes and fences.
#[tactic(auto, unfolding(crate::specs::Ptx::cause_of))]
fn cause(b: &Basis, order: &Relation) -> Relation
    ensures { holds result ≡ cause_by b.now (holds order.now) }
{
    let sc = order.from(b.fences).to(b.fences);
    let base = b.fixed.union(&sc).plus();
    let counts = counted(&b.crossing, &base);
    counts.union(&b.seen.then(&counts))
}

// What is prepared and what is laid out stand apart, as the interface hands them over.

// Axiom 1: strong communication, and program order within one location.
fn per_location(b: &Basis, l: &Causality) -> Relation
    ensures { holds result ≡ (holds b.now.strong ∩ holds l.now.comm) ∪ holds b.now.poloc }
{
    b.strong.intersection(&l.comm).union(&b.poloc)
}

// Axiom 2: a strong write between the two events of an atomic step.
fn torn(b: &Basis, l: &Causality) -> Relation
    ensures { let s = holds b.now.strong in
        let c = l.now.coherence in
        holds result ≡ ((s ∩ holds c.fr) ⨾ (s ∩ holds c.co_plus)) ∩ holds b.now.atomic }
{
    b.strong
        .intersection(&l.coherence.fr)
        .then(&b.strong.intersection(&l.coherence.co_plus))
        .intersection(&b.atomic)
}

// Axiom 3: causality between different writes to one address that coherence order does not have.
fn unordered(b: &Basis, l: &Causality) -> Relation
    ensures { holds result ≡ (holds l.now.cause ∩ holds b.now.rivals) ∖ holds l.now.coherence.co_plus }
{
    l.cause
        .intersection(&b.rivals)
        .difference(&l.coherence.co_plus)
}

// Axiom 4: an event that causes itself, or that communicates to its cause.
fn causality(l: &Causality) -> Relation
    ensures { holds result ≡ holds l.now.cause ∪ (holds l.now.comm ⨾ holds l.now.cause) }
{
    l.cause.union(&l.comm.then(&l.cause))
}

// Whether two events are different SC fences.
fn are_fences(sheet: &ClosedSheet, a: usize, b: usize) -> bool
    ensures { result ≡ fence_pairs (closed_book sheet.now).threads (closed_book sheet.now).events a b }
{
    is_of(sheet, Class::ScFence, a)
        & is_of(sheet, Class::ScFence, b)
        & !is_tied(sheet, Tie::Itself, a, b)
}

impl MemoryModel for Ptx {
    type Prepared = Basis;

    type Laid = Causality;

    ghost meaning = { ptx_meaning };

    ghost yields = { yielded };

    ghost shows = { shown };

    ghost lawful = { λ f. ptx_lawful f };

    fn axioms(&self) -> usize {
        6
    }

    fn kind(&self, number: usize) -> AxiomKind {
        match number {
            0 | 1 | 5 => AxiomKind::Acyclic,
            4 => AxiomKind::Irreflexive,
            _ => AxiomKind::Empty,
        }
    }

    fn needs(&self, sheet: &ClosedSheet, a: usize, b: usize) -> bool {
        (are_rivals(sheet, a, b) | are_fences(sheet, a, b)) & self.is_strong(sheet, a, b)
    }

    fn prepare(&self, x: &Execution) -> Basis {
        let strong = self.strong(x.sheet());
        let poloc = self.poloc(x);
        let seen = obs(x, &strong).plus();
        let synced = sync(&strong, &starts(x, &poloc), &seen, &ends(x, &poloc));
        Basis {
            reading: Reading::of(x),
            rf: *x.rf(),
            atomic: *x.atomic(),
            thin_air: x.rf().union(x.depend()),
            strong,
            poloc,
            rivals: rivals(x.sheet()),
            seen,
            fixed: x.po().union(&synced),
            fences: class(x.sheet(), Class::ScFence),
            crossing: Crossing::of(*self, x.sheet()),
        }
    }

    fn lay(&self, prepared: &Basis, order: &Relation) -> Causality {
        let coherence = prepared.reading.under(order);
        let comm = prepared.rf.union(&coherence.fr).union(&coherence.co_plus);
        Causality {
            coherence,
            comm,
            cause: cause(prepared, order),
        }
    }

    fn relation(&self, prepared: &Basis, laid: &Causality, number: usize) -> Relation {
        match number {
            0 => prepared.thin_air,
            1 => per_location(prepared, laid),
            2 => torn(prepared, laid),
            3 => unordered(prepared, laid),
            4 => causality(laid),
            5 => laid.coherence.co,
            _ => Relation::empty(),
        }
    }
}
