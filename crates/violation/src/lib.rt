// What breaks an axiom: its relation must be acyclic, irreflexive or empty. A violation is a list of events: the events of a
// cycle in order; one event that is related to itself; two related events. The witness is the shortest violation, and among
// those the first in lexicographic order.
#![tactic(auto)]

ghost use Rattle.std.specs.Prelude.{Decides};
ghost use Rattle.relation.specs.Meaning.{holds};
ghost use Rattle.violation.specs.Violations.{Breaks, Answered, Unique, SpelledOut};
ghost use Rattle.model.specs.declared.axiom_kind.AxiomKind.TheVariants.{Irreflexive, Empty};

use cycles::shortest_cycle;
use model::axiom_kind::AxiomKind;
use peeling::is_cyclic;
use relation::Relation;

// Whether some event is related to itself.
#[tactic(auto, using(crate::proofs::Telling::loop_decides))]
fn has_loop(rel: &Relation) -> bool
    ensures { Decides result (Breaks Irreflexive (holds rel.now)) }
{
    rel.lowest_loop().is_some()
}

// Whether some event is related to some event.
#[tactic(auto, using(crate::proofs::Telling::pair_decides))]
fn has_pair(rel: &Relation) -> bool
    ensures { Decides result (Breaks Empty (holds rel.now)) }
{
    rel.lowest_pair().is_some()
}

// Whether the relation breaks what the kind asks of it.
pub fn is_broken(kind: AxiomKind, rel: &Relation) -> bool
    ensures { Decides result (Breaks kind (holds rel.now)) }
{
    match kind {
        AxiomKind::Acyclic => is_cyclic(rel),
        AxiomKind::Irreflexive => has_loop(rel),
        AxiomKind::Empty => has_pair(rel),
    }
}

// The witness of a relation that is not irreflexive. Relation and memory stand apart: the one is read, the other is the caller's.
#[tactic(auto, using(relation::proofs::Relations::holds_first))]
fn loop_witness(rel: &Relation, memory: &mut [u8; 64]) -> Option<usize>
    ensures { Answered Irreflexive (holds rel.now) memory.old memory.new result }
{
    let event = rel.lowest_loop()?;
    memory[0] = event as u8;
    Some(1)
}

// The witness of a relation that is not empty.
#[tactic(auto, using(relation::proofs::Relations::holds_first, relation::proofs::Relations::holds_second))]
fn pair_witness(rel: &Relation, memory: &mut [u8; 64]) -> Option<usize>
    ensures { Answered Empty (holds rel.now) memory.old memory.new result }
{
    let (first, second) = rel.lowest_pair()?;
    memory[0] = first as u8;
    memory[1] = second as u8;
    Some(2)
}

// Writes the witness to the front of the caller's `memory`, a byte for each event, and tells how many events it has; `None`, and nothing is
// written, exactly if the relation does not break what the kind asks. The last two clauses are theorems about every relation:
// a witness is unique, and it is what the rules spell out for each kind.
#[tactic(auto, using(crate::proofs::Telling::unique))]
pub fn witness(kind: AxiomKind, rel: &Relation, memory: &mut [u8; 64]) -> Option<usize>
    ensures answered { Answered kind (holds rel.now) memory.old memory.new result }
    ensures unique { Unique }
    ensures spelled { SpelledOut }
{
    match kind {
        AxiomKind::Acyclic => shortest_cycle(rel, memory),
        AxiomKind::Irreflexive => loop_witness(rel, memory),
        AxiomKind::Empty => pair_witness(rel, memory),
    }
}
