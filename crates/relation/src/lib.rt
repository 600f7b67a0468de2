// Sets of events and relations on them. An event is a number from 0 to 63; any other number is in no set and related to
// nothing, and adding it alters nothing.
#![tactic(auto)]

ghost use Rattle.std.specs.Prelude.{◌≡◌, ℕ, ◌<◌, ◌≤◌, min, Bool, false, not};
ghost use Rattle.closure.specs.Steps.{table};
ghost use Rattle.relation.specs.Algebra.{Set, Rel, upto, none, nothing, everything, below, single, either, both, except, only_if, some_below, least_below, image, range, domain, column, inverse, plus, cut, lowest_loop, lowest_pair, pair, ◌∪◌, ◌∩◌, ◌∖◌, ◌⨾◌, ◌◁◌, ◌▷◌};
ghost use Rattle.relation.specs.Meaning.{members, holds, Laid, StartsBelow, GivesRows, GivesTests};
ghost use Rattle.relation.specs.Reading.{NothingIn, Lowest, LowestLoop, LowestPair, ImageOf, RangeOf, DomainOf, StepsOf, ChainsOf};

use closure::reach;

// How many events there are: they are the numbers below.
pub const EVENTS: usize = 64;

// How many pairs of events there are.
const ENTRIES: usize = EVENTS * EVENTS;

// A set of events 0 to 63: event j is a member where bit j is set.
#[derive(Clone, Copy, PartialEq, Eq, Debug)]
pub struct Row {
    bits: u64,
}

impl Row {
    // The set of no events.
    pub fn empty() -> Row
        ensures { members result ≡ nothing }
    {
        Row { bits: 0 }
    }

    // The set of all 64 events.
    pub fn all() -> Row
        ensures { members result ≡ everything }
    {
        Row { bits: u64::MAX }
    }

    // The set of one event, and the empty one where i is none.
    pub fn of(i: usize) -> Row
        ensures { members result ≡ single i }
    {
        if i < EVENTS {
            Row { bits: 1 << i }
        } else {
            Row::empty()
        }
    }

    // The events below n, that is all of them where n is 64 or more.
    pub fn below(n: usize) -> Row
        ensures { members result ≡ below n }
    {
        if n < EVENTS {
            Row { bits: (1 << n) - 1 }
        } else {
            Row::all()
        }
    }

    // Whether i is a member.
    pub fn has(self, i: usize) -> bool
        ensures { result ≡ members self i }
    {
        !self.intersection(Row::of(i)).is_empty()
    }

    // The events of this set or the other.
    pub fn union(self, other: Row) -> Row
        ensures { members result ≡ either (members self) (members other) }
    {
        Row {
            bits: self.bits | other.bits,
        }
    }

    // The events of both.
    pub fn intersection(self, other: Row) -> Row
        ensures { members result ≡ both (members self) (members other) }
    {
        Row {
            bits: self.bits & other.bits,
        }
    }

    // The events of this set that are not in the other.
    pub fn difference(self, other: Row) -> Row
        ensures { members result ≡ except (members self) (members other) }
    {
        Row {
            bits: self.bits & !other.bits,
        }
    }

    // This set and the event i.
    pub fn with(self, i: usize) -> Row
        ensures { members result ≡ either (members self) (single i) }
    {
        self.union(Row::of(i))
    }

    // This set without the event i.
    pub fn without(self, i: usize) -> Row
        ensures { members result ≡ except (members self) (single i) }
    {
        self.difference(Row::of(i))
    }

    // This set where `keep` is true, and else the empty one.
    pub fn only_if(self, keep: bool) -> Row
        ensures { members result ≡ only_if keep (members self) }
    {
        if keep { self } else { Row::empty() }
    }

    // Whether there is no member.
    pub fn is_empty(self) -> bool
        ensures is { result ≡ not (some_below 64 (members self)) }
        ensures none { NothingIn (members self) result }
    {
        self.bits == 0
    }

    // The lowest member, if there is one.
    pub fn lowest(self) -> Option<usize>
        ensures is { result ≡ least_below 64 (members self) }
        ensures lowest { Lowest (members self) result }
    {
        (!self.is_empty()).then(|| self.bits.trailing_zeros() as usize)
    }
}

// A relation on the events 0 to 63: row i has the events that i is related to. A pair is given by its two events, which a struct
// of the two would only hold until each method takes them apart.
#[derive(Clone, Copy, PartialEq, Eq, Debug)]
pub struct Relation {
    rows: [Row; EVENTS],
}

impl Relation {
    // The relation of no pairs.
    pub fn empty() -> Relation
        ensures { holds result ≡ none }
    {
        Relation {
            rows: [Row { bits: 0 }; EVENTS],
        }
    }

    // What i is related to.
    pub fn row(&self, i: usize) -> Row
        ensures { members result ≡ holds self.now i }
    {
        self.rows.get(i).copied().unwrap_or(Row::empty())
    }

    // Whether i is related to j.
    pub fn has(&self, i: usize, j: usize) -> bool
        ensures { result ≡ holds self.now i j }
    {
        self.row(i).has(j)
    }

    // Adds the pair of i and j, where both are events.
    // Written by its index: after `get_mut` a proof knows no row of the array.
    pub fn add(&mut self, i: usize, j: usize)
        ensures { holds self.new ≡ holds self.old ∪ pair i j }
    {
        if i < EVENTS {
            self.rows[i] = self.rows[i].with(j);
        }
    }

    // Takes the pair of i and j out.
    // Written by its index, as in `add`.
    pub fn remove(&mut self, i: usize, j: usize)
        ensures { holds self.new ≡ holds self.old ∖ pair i j }
    {
        if i < EVENTS {
            self.rows[i] = self.rows[i].without(j);
        }
    }

    // The pairs of this relation or the other.
    pub fn union(&self, other: &Relation) -> Relation
        ensures { holds result ≡ holds self.now ∪ holds other.now }
    {
        by_rows(|i| self.row(i).union(other.row(i)))
    }

    // The pairs of both.
    pub fn intersection(&self, other: &Relation) -> Relation
        ensures { holds result ≡ holds self.now ∩ holds other.now }
    {
        by_rows(|i| self.row(i).intersection(other.row(i)))
    }

    // The pairs of this relation that are not of the other.
    pub fn difference(&self, other: &Relation) -> Relation
        ensures { holds result ≡ holds self.now ∖ holds other.now }
    {
        by_rows(|i| self.row(i).difference(other.row(i)))
    }

    // The pairs that start in `set`.
    pub fn from(&self, set: Row) -> Relation
        ensures { holds result ≡ members set ◁ holds self.now }
    {
        by_rows(|i| self.row(i).only_if(set.has(i)))
    }

    // The pairs that end in `set`.
    pub fn to(&self, set: Row) -> Relation
        ensures { holds result ≡ holds self.now ▷ members set }
    {
        by_rows(|i| self.row(i).intersection(set))
    }

    // What the members of `set` are related to.
    pub fn image(&self, set: Row) -> Row
        ensures is { members result ≡ image (members set) (holds self.now) }
        ensures member { ImageOf (members set) (holds self.now) (members result) }
    {
        joined(|k| self.row(k).only_if(set.has(k)))
    }

    // What some event is related to.
    pub fn range(&self) -> Row
        ensures is { members result ≡ range (holds self.now) }
        ensures member { RangeOf (holds self.now) (members result) }
    {
        joined(|k| self.row(k))
    }

    // The events that are related to some event.
    pub fn domain(&self) -> Row
        ensures is { members result ≡ domain (holds self.now) }
        ensures member { DomainOf (holds self.now) (members result) }
    {
        those(EVENTS, |i| !self.row(i).is_empty())
    }

    // A step of this relation, then one of `next`.
    pub fn then(&self, next: &Relation) -> Relation
        ensures is { holds result ≡ holds self.now ⨾ holds next.now }
        ensures member { StepsOf (holds self.now) (holds next.now) (holds result) }
    {
        by_rows(|i| next.image(self.row(i)))
    }

    // What is related to j.
    pub fn column(&self, j: usize) -> Row
        ensures { members result ≡ column (holds self.now) j }
    {
        those(EVENTS, |i| self.has(i, j))
    }

    // The pairs, each turned around.
    pub fn inverse(&self) -> Relation
        ensures { holds result ≡ inverse (holds self.now) }
    {
        by_rows(|j| self.column(j))
    }

    // All chains of one or more steps of this relation: its transitive closure.
    pub fn plus(&self) -> Relation
        ensures is { holds result ≡ plus (holds self.now) }
        ensures chains { ChainsOf (holds self.now) (holds result) }
    {
        let mut steps = [false; ENTRIES];
        lay_out(self, &mut steps);
        let _ = reach(&mut steps, EVENTS);
        read_back(&steps)
    }

    // The lowest event that is related to itself, if there is one.
    pub fn lowest_loop(&self) -> Option<usize>
        ensures is { result ≡ lowest_loop (holds self.now) }
        ensures lowest { LowestLoop (holds self.now) result }
    {
        (0..EVENTS).find(|i| self.has(*i, *i))
    }

    // The lowest pair, by its first event and then its second, if there is one.
    pub fn lowest_pair(&self) -> Option<(usize, usize)>
        ensures is { result ≡ lowest_pair (holds self.now) }
        ensures lowest { LowestPair (holds self.now) result }
    {
        let i = (0..EVENTS).find(|i| !self.row(*i).is_empty())?;
        self.row(i).lowest().map(|j| (i, j))
    }
}

// The relation whose rows `row` gives.
fn by_rows<F: Fn(usize) -> Row>(row: F) -> Relation
    requires { (i : ℕ) → i < 64 → F.pre row i }
    ensures { (r : Rel) → GivesRows (F.post row) r → StartsBelow r → holds result ≡ r }
{
    let mut rows = [Row { bits: 0 }; EVENTS];
    for (i, place) in rows.iter_mut().enumerate() {
        *place = row(i);
    }
    Relation { rows }
}

// The events of all the rows that `row` gives.
fn joined<F: Fn(usize) -> Row>(row: F) -> Row
    requires { (i : ℕ) → i < 64 → F.pre row i }
    ensures { (r : Rel) → GivesRows (F.post row) r → members result ≡ range r }
{
    let mut all = Row::empty();
    for k in 0..EVENTS {
        all = all.union(row(k));
    }
    all
}

// The events below n that pass `keep`.
fn those<F: Fn(usize) -> bool>(n: usize, keep: F) -> Row
    requires few { n ≤ 64 }
    requires may { (i : ℕ) → i < n → F.pre keep i }
    ensures { (a : Set) → GivesTests (F.post keep) n a → members result ≡ upto n a }
{
    let mut all = Row::empty();
    for j in 0..n {
        all = all.union(Row::of(j).only_if(keep(j)));
    }
    all
}

// Writes the pairs of `r` as a table of yes and no, row after row: entry p is that of p / 64 and p % 64.
fn lay_out(r: &Relation, steps: &mut [bool; ENTRIES])
    ensures { Laid (holds r.now) steps.new 4096 }
{
    for (p, step) in steps.iter_mut().enumerate() {
        *step = r.has(p / EVENTS, p % EVENTS);
    }
}

// Row i of a table of yes and no.
fn read_row(steps: &[bool; ENTRIES], i: usize) -> Row
    requires { i < 64 }
    ensures { members result ≡ cut 64 (table false 64 steps.now) i }
{
    those(EVENTS, |j| steps[i * EVENTS + j])
}

// The relation of a table of yes and no.
fn read_back(steps: &[bool; ENTRIES]) -> Relation
    ensures { holds result ≡ cut 64 (table false 64 steps.now) }
{
    by_rows(|i| read_row(steps, i))
}

// A test on pairs of events, `relates` in the contracts.
// A trait and no closure: `tabulate` is public, and its contract equates where it could only quantify over what a closure gives.
pub trait Pairs {
    ghost relates: { Self → ℕ → ℕ → Bool };

    fn related(&self, i: usize, j: usize) -> bool
        ensures { result ≡ relates self.now i j };
}

// The events below `n` that `p` relates `i` to, if `i` is below `n` too.
fn tabulate_row<P: Pairs>(p: &P, i: usize, n: usize) -> Row
    requires { n ≤ 64 }
    ensures { members result ≡ cut n (P.relates p.now) i }
{
    if i >= n {
        return Row::empty();
    }
    those(n, |j| p.related(i, j))
}

// The pairs of events below `n` that `p` relates; of all events where `n` is 64 or more.
pub fn tabulate<P: Pairs>(p: &P, n: usize) -> Relation
    ensures { holds result ≡ cut (min n 64) (P.relates p.now) }
{
    let events = n.min(EVENTS);
    by_rows(|i| tabulate_row(p, i, events))
}
