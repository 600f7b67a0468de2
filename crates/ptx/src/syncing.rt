// Synchronisation, which does not rest on the order.
ghost use Rattle.std.specs.Prelude.{◌≡◌};
ghost use Rattle.relation.specs.Algebra.{◌∪◌, ◌∩◌};
ghost use Rattle.relation.specs.Meaning.{holds};
ghost use Rattle.execution.specs.Facts.{facts};
ghost use Rattle.ptx.specs.Ptx.{starts, ends, sync_of};

use execution::class::Class;
use execution::execution::Execution;
use execution::facts::{class, tied};
use execution::tie::Tie;
use relation::Relation;

// Observation: strong pairs of read-from and of atomic steps.
pub fn obs(x: &Execution, strong: &Relation) -> Relation
    ensures { holds result ≡ holds strong.now ∩ ((facts x.now).rf ∪ (facts x.now).atomic) }
{
    strong.intersection(&x.rf().union(x.atomic()))
}

// From a release to where it starts. `ends` mirrors it: one text for both would take each set and side as a parameter.
#[tactic(auto, unfolding(crate::specs::Ptx::starts))]
pub fn starts(x: &Execution, poloc: &Relation) -> Relation
    ensures { holds result ≡ starts (facts x.now).threads (facts x.now).events (facts x.now).po (holds poloc.now) }
{
    let releases = class(x.sheet(), Class::ReleaseWrite);
    let writes = class(x.sheet(), Class::Write);
    let fences = class(x.sheet(), Class::ReleaseFence);
    tied(x.sheet(), Tie::Itself)
        .from(releases)
        .union(&poloc.from(releases).to(writes))
        .union(&x.po().from(fences))
}

// From what ends at an acquire to the acquire.
#[tactic(auto, unfolding(crate::specs::Ptx::ends))]
pub fn ends(x: &Execution, poloc: &Relation) -> Relation
    ensures { holds result ≡ ends (facts x.now).threads (facts x.now).events (facts x.now).po (holds poloc.now) }
{
    let acquires = class(x.sheet(), Class::AcquireRead);
    let reads = class(x.sheet(), Class::Read);
    let fences = class(x.sheet(), Class::AcquireFence);
    tied(x.sheet(), Tie::Itself)
        .from(acquires)
        .union(&poloc.from(reads).to(acquires))
        .union(&x.po().to(fences))
}

// A strong pair of a start and an end, with observation from the one to the other.
#[tactic(auto, unfolding(crate::specs::Ptx::sync_of))]
pub fn sync(strong: &Relation, starts: &Relation, seen: &Relation, ends: &Relation) -> Relation
    ensures { holds result ≡ sync_of (holds strong.now) (holds starts.now) (holds seen.now) (holds ends.now) }
{
    strong.intersection(&starts.then(seen).then(ends))
}
