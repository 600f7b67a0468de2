// Closes random tables of steps and tells what comes out, a line for each table. `tools/tables.py` draws the same
// tables, finds the same in another way, and writes the file `stdout` that this program is held to.
#![tactic(auto)]

use closure::{Misfit, distances, reach};
use cycles::shortest_cycle;
use relation::Relation;
use std::alloc::{AllocError, Global};
use std::io;

mod draws;
mod shapes;

use draws::Draws;
use shapes::Shape;

const SEED: u64 = 2026;

// The table of a relation on n events, row after row.
fn yes_no(heap: Global, r: &Relation, n: usize) -> Result<Vec<bool>, AllocError> {
    let mut table = Vec::new(heap);
    for i in 0..n {
        for j in 0..n {
            table.push(r.has(i, j))?;
        }
    }
    Ok(table)
}

fn single_steps(heap: Global, table: &[bool]) -> Result<Vec<Option<u8>>, AllocError> {
    table.iter().map(|step| step.then_some(1)).collect(heap)
}

fn pairs_of(table: &[bool]) -> usize {
    table.iter().filter(|step| **step).count()
}

fn sum_of(counts: &[Option<u8>]) -> u32 {
    counts
        .iter()
        .flatten()
        .fold(0, |sum: u32, steps| sum.wrapping_add(u32::from(*steps)))
}

// FNV-1a over one more byte.
fn mixed(check: u32, byte: u8) -> u32 {
    (check ^ u32::from(byte)).wrapping_mul(16777619)
}

// FNV-1a over the two closed tables, entry by entry; no way counts as 0 steps.
fn checksum(table: &[bool], counts: &[Option<u8>]) -> u32 {
    let steps = counts.iter().map(|count| count.unwrap_or(0));
    table
        .iter()
        .map(|step| u8::from(*step))
        .chain(steps)
        .fold(2166136261, mixed)
}

fn print_cycle(rt: &HostRuntime, r: &Relation) -> io::Result<()> {
    let mut memory = [0u8; 64];
    let Some(len) = shortest_cycle(r, &mut memory) else {
        return println!(rt; " acyclic");
    };
    print!(rt; " cycle:")?;
    for event in memory.iter().take(len) {
        print!(rt; " {event}")?;
    }
    println!(rt; "")
}

fn report(rt: &HostRuntime, shape: Shape, n: usize, r: &Relation) -> io::Result<()> {
    let mut table = yes_no(rt.alloc(), r, n)?;
    let mut counts = single_steps(rt.alloc(), table.as_slice())?;
    let pairs = pairs_of(table.as_slice());
    let _ = reach(table.as_mut_slice(), n);
    let _ = distances(counts.as_mut_slice(), n);
    let reached = pairs_of(table.as_slice());
    let sum = sum_of(counts.as_slice());
    let check = checksum(table.as_slice(), counts.as_slice());
    print!(rt; "n={n} {shape} pairs={pairs} reach={reached} sum={sum} check={check:08x}")?;
    print_cycle(rt, r)
}

// Every third entry is a step.
fn pattern(heap: Global, entries: usize) -> Result<Vec<bool>, AllocError> {
    (0..entries).map(|p| p % 3 == 0).collect(heap)
}

fn print_answer(rt: &HostRuntime, answer: Result<(), Misfit>, unchanged: bool) -> io::Result<()> {
    let state = if unchanged { "unchanged" } else { "changed" };
    match answer {
        Ok(()) => print!(rt; " accepted, {state}"),
        Err(why) => print!(rt; " refused {why:?}, {state}"),
    }
}

// Closes a table that does not fit.
fn report_refusal(rt: &HostRuntime, n: usize, entries: usize) -> io::Result<()> {
    let before = pattern(rt.alloc(), entries)?;
    let counts_before = single_steps(rt.alloc(), before.as_slice())?;
    let mut table = pattern(rt.alloc(), entries)?;
    let mut counts = single_steps(rt.alloc(), before.as_slice())?;
    print!(rt; "n={n} entries={entries}: reach")?;
    let answer = reach(table.as_mut_slice(), n);
    print_answer(rt, answer, table.as_slice() == before.as_slice())?;
    print!(rt; "; distances")?;
    let answer = distances(counts.as_mut_slice(), n);
    print_answer(rt, answer, counts.as_slice() == counts_before.as_slice())?;
    println!(rt; "")
}

fn main(rt: HostRuntime) -> io::Result<()> {
    let mut draws = Draws::new(SEED);
    for n in 0..=64 {
        for shape in Shape::ALL {
            let r = shape.draw(&mut draws, n);
            report(&rt, shape, n, &r)?;
        }
    }
    for (n, entries) in [
        (65, 4225),
        (65, 10),
        (usize::MAX, 1),
        (64, 4095),
        (8, 63),
        (1, 0),
    ] {
        report_refusal(&rt, n, entries)?;
    }
    Ok(())
}
