// Whether a relation has a cycle, by peeling: an event without a successor among the events left lies on none.
#![tactic(auto)]

ghost use Rattle.std.specs.Prelude.{Decides};
ghost use Rattle.relation.specs.Meaning.{members, holds};
ghost use Rattle.peeling.specs.Peeling.{Cyclic, Peeled};

use relation::{EVENTS, Relation, Row};

// Takes out of `live`, from the highest event down, each event that has no successor in it. Tells whether there was one.
fn peel(rel: &Relation, live: &mut Row) -> bool
    ensures { Peeled (holds rel.now) (members live.old) (members live.new) result 0 }
{
    let mut removed = false;
    for k in (0..EVENTS).rev() {
        if live.has(k) & rel.row(k).intersection(*live).is_empty() {
            *live = live.without(k);
            removed = true;
        }
    }
    removed
}

// Whether there is a cycle: events each related to the next, and the last to the first.
pub fn is_cyclic(rel: &Relation) -> bool
    ensures { Decides result (Cyclic (holds rel.now)) }
{
    let mut live = Row::all();
    while peel(rel, &mut live) {}
    !live.is_empty()
}
