// The witness of a cyclic relation: of its shortest cycles, the first in lexicographic order.
#![tactic(auto)]

ghost use Rattle.std.specs.Prelude.{◌≡◌, ◌-◌, ◌<◌, ◌≤◌, true, Some};
ghost use Rattle.relation.specs.Meaning.{holds};
ghost use Rattle.cycles.specs.Cycles.{Answered, Unique, FoundStepwise, CyclesAreChains};
ghost use Rattle.cycles.specs.Counts.{apart, Counted, Shorter, Found, Walked};

use closure::distances;
use relation::{EVENTS, Relation};
use std::array;

// How many entries the table of all events has.
const ENTRIES: usize = EVENTS * EVENTS;

// How many steps each event is from each other, row after row, and `None` where no way leads.
#[derive(Drop)]
struct Distances {
    steps: [Option<u8>; ENTRIES],
}

impl Distances {
    fn of(r: &Relation) -> Distances
        ensures { Counted (holds r.now) (apart result) }
    {
        let mut steps = array::from_fn(|p| r.has(p / EVENTS, p % EVENTS).then_some(1));
        let _ = distances(&mut steps, EVENTS);
        Distances { steps }
    }

    fn apart(&self, i: usize, j: usize) -> Option<u8>
        requires { (i < 64) × (j < 64) }
        ensures { result ≡ apart self.now i j }
    {
        self.steps[i * EVENTS + j]
    }

    // The length of the shortest cycles, if there is one.
    fn shortest(&self) -> Option<u8>
        ensures { Shorter (apart self.now) result }
    {
        (0..EVENTS).filter_map(|i| self.apart(i, i)).min()
    }

    // The lowest event that is `d` steps from itself.
    fn lowest_start(&self, d: u8) -> Option<usize>
        ensures { Found (λ i. apart self.now i i ≡ Some d) result }
    {
        (0..EVENTS).find(|&i| self.apart(i, i) == Some(d))
    }

    // The lowest successor of `from` that is `d` steps from `start`.
    fn next(&self, r: &Relation, from: usize, start: usize, d: u8) -> Option<usize>
        requires { start < 64 }
        ensures { Found (λ t. (holds r.now from t ≡ true) × (apart self.now t start ≡ Some d)) result }
    {
        (0..EVENTS).find(|&t| r.has(from, t) && self.apart(t, start) == Some(d))
    }

    // Writes the cycle of `len` events that starts at `start`, each next event the lowest from which it still closes.
    fn walk(&self, r: &Relation, start: usize, len: u8, memory: &mut [u8; 64])
        requires room { (start < 64) × (len ≤ 64) }
        requires counted { Counted (holds r.now) (apart self.now) }
        requires closes { apart self.now start start ≡ Some len }
        ensures { Walked (holds r.now) (apart self.now) start len memory.old memory.new len }
    {
        memory[0] = start as u8;
        // Each event is found from the one that stands before it, so the loop counts places.
        for i in 1..len as usize {
            let from = memory[i - 1] as usize;
            let next = self.next(r, from, start, len - i as u8).unwrap();
            memory[i] = next as u8;
        }
    }
}

// Writes the witness of a cyclic relation to the front of `memory`, which is the caller's, and tells how many events it has, each a
// byte; `None` exactly if there is no cycle, and then nothing is written. The last three clauses are theorems about every
// relation: a witness is unique, it is the shortest cycle that is found step by step, and cycles are closed chains.
pub fn shortest_cycle(r: &Relation, memory: &mut [u8; 64]) -> Option<usize>
    ensures witness { Answered (holds r.now) memory.old memory.new result }
    ensures unique { Unique }
    ensures stepwise { FoundStepwise }
    ensures chains { CyclesAreChains }
{
    let distances = Distances::of(r);
    let len = distances.shortest()?;
    let start = distances.lowest_start(len).unwrap();
    distances.walk(r, start, len, memory);
    Some(usize::from(len))
}
