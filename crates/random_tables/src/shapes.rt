// The shapes of tables.
use crate::draws::Draws;
use relation::Relation;
use std::{array, fmt};

// An enum in place of a table of functions, since a shape also has its name. The draws go on from table to table, so they are lent.
#[derive(Clone, Copy)]
pub(crate) enum Shape {
    VerySparse,
    Sparse,
    Middle,
    Dense,
    Ring,
    Chords,
    NearlyAcyclic,
}

impl Shape {
    pub(crate) const ALL: [Shape; 7] = [
        Shape::VerySparse,
        Shape::Sparse,
        Shape::Middle,
        Shape::Dense,
        Shape::Ring,
        Shape::Chords,
        Shape::NearlyAcyclic,
    ];

    // A relation of this shape on the events below n.
    pub(crate) fn draw(self, draws: &mut Draws, n: usize) -> Relation {
        match self {
            Shape::VerySparse => scattered(draws, n, 4, n.wrapping_mul(5)),
            Shape::Sparse => scattered(draws, n, 3, n.wrapping_mul(2)),
            Shape::Middle => scattered(draws, n, 1, 8),
            Shape::Dense => dense(draws, n),
            Shape::Ring => ring(&shuffled(draws, n)[..n.min(64)]),
            Shape::Chords => chords(draws, n),
            Shape::NearlyAcyclic => nearly_acyclic(draws, n),
        }
    }
}

impl fmt::Display for Shape {
    fn fmt<W: fmt::Write>(&self, f: &mut fmt::Formatter<W>) -> fmt::Result {
        f.write_str(match self {
            Shape::VerySparse => "very sparse",
            Shape::Sparse => "sparse",
            Shape::Middle => "middle",
            Shape::Dense => "dense",
            Shape::Ring => "ring",
            Shape::Chords => "chords",
            Shape::NearlyAcyclic => "nearly acyclic",
        })
    }
}

fn relate(r: &mut Relation, i: usize, j: usize) {
    if i < 64 && j < 64 {
        r.add(i, j);
    }
}

// The pairs of events below n that are drawn, each pair in its turn.
fn drawn<F: FnMut(usize, usize) -> bool>(n: usize, mut draw: F) -> Relation
    requires { (f : _) (i : _) (j : _) → F.pre f i j }
{
    let mut r = Relation::empty();
    for i in 0..n {
        for j in 0..n {
            if draw(i, j) {
                relate(&mut r, i, j);
            }
        }
    }
    r
}

// Each pair of different events with a chance of `hits` in `out_of`.
fn scattered(draws: &mut Draws, n: usize, hits: usize, out_of: usize) -> Relation {
    drawn(n, |i, j| draws.below(out_of) < hits && i != j)
}

// Each pair with a chance of 5 in 8, also an event with itself.
fn dense(draws: &mut Draws, n: usize) -> Relation {
    drawn(n, |_, _| draws.below(8) < 5)
}

// The events below n in a random order, at the front.
fn shuffled(draws: &mut Draws, n: usize) -> [usize; 64] {
    let mut order = array::from_fn(|i| i);
    for i in 1..n.min(64) {
        order.swap(i, draws.below(i + 1) % 64);
    }
    order
}

// Relates the event at place i of `order` to the one that stands `ahead` places after it, round about.
fn relate_ahead(r: &mut Relation, order: &[usize], i: usize, ahead: usize) {
    if !order.is_empty() {
        let j = i.wrapping_add(ahead) % order.len();
        if let (Some(from), Some(to)) = (order.get(i), order.get(j)) {
            relate(r, *from, *to);
        }
    }
}

// One cycle through the events of `order`.
fn ring(order: &[usize]) -> Relation {
    let mut r = Relation::empty();
    for i in 0..order.len() {
        relate_ahead(&mut r, order, i, 1);
    }
    r
}

// A ring, and some steps that leave out one of its events.
fn chords(draws: &mut Draws, n: usize) -> Relation {
    let order = shuffled(draws, n);
    let order = &order[..n.min(64)];
    let mut r = ring(order);
    for i in 0..order.len() {
        if draws.below(8) < 1 {
            relate_ahead(&mut r, order, i, 2);
        }
    }
    r
}

// Steps to higher events only, but for one.
fn nearly_acyclic(draws: &mut Draws, n: usize) -> Relation {
    let mut r = Relation::empty();
    for i in 0..n {
        for j in i + 1..n {
            if draws.below(n) < 3 {
                relate(&mut r, i, j);
            }
        }
    }
    if n > 0 {
        let a = draws.below(n);
        let b = draws.below(n);
        relate(&mut r, a.max(b), a.min(b));
    }
    r
}
