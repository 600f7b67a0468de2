// Tells the relation of every axiom of every model for many sheets. The case files come one after another, each behind its
// length in two bytes, low byte first. What it prints is compared with what an independent reader of the rules says.
#![tactic(auto)]

use casefile::input::read;
use cases::Cases;
use execution::execution::Execution;
use model::interface::MemoryModel;
use model::view::View;
use ptx::flavour::Ptx;
use relation::{Relation, Row};
use sc::axioms::Sc;
use sheet::closed::ClosedSheet;
use std::io;
use std::io::Read;

const LIMIT: u64 = 1048576;

// How many sheets there are, from the first one on, of which each row is asked for by itself too.
const FEW: usize = 6;

// Prints the members of a row, with commas between them.
fn print_row(rt: &HostRuntime, row: Row) -> io::Result<()> {
    let members = (0..64).filter(|event| row.has(*event));
    for (count, event) in members.enumerate() {
        let comma = if count == 0 { "" } else { "," };
        print!(rt; "{comma}{event}")?;
    }
    Ok(())
}

// Prints the rows that are not blank.
fn print_rows(rt: &HostRuntime, relation: &Relation) -> io::Result<()> {
    for event in 0..64 {
        let row = relation.row(event);
        if !row.is_empty() {
            print!(rt; " {event}:")?;
            print_row(rt, row)?;
        }
    }
    println!(rt; "")
}

// Handle, model and execution are lent apart: a struct of the three would be built for one call each, since the model's type differs.

// Asks for each row by itself, absent events and axioms past the last one included.
fn compare_rows<M: MemoryModel>(rt: &HostRuntime, model: &M, x: &Execution) -> io::Result<()> {
    let prepared = model.prepare(x);
    let laid = model.lay(&prepared, x.order());
    for number in 0..=8 {
        let relation = model.relation(&prepared, &laid, number);
        for event in 0..=64 {
            if model.row(x, number, event) != relation.row(event) {
                println!(rt; "row differs")?;
            }
        }
    }
    Ok(())
}

// Tells of all axioms of a model, which has this number.
fn tell<M: MemoryModel>(rt: &HostRuntime, number: u8, model: &M, x: &Execution) -> io::Result<()> {
    let prepared = model.prepare(x);
    let laid = model.lay(&prepared, x.order());
    for axiom in 0..model.axioms() {
        print!(rt; "{number} {axiom}")?;
        print_rows(rt, &model.relation(&prepared, &laid, axiom))?;
    }
    Ok(())
}

// What is told of a model at the sheet of this place.
fn answer_model<M: MemoryModel>(
    rt: &HostRuntime,
    place: usize,
    number: u8,
    model: &M,
    x: &Execution,
) -> io::Result<()> {
    tell(rt, number, model, x)?;
    if place < FEW {
        compare_rows(rt, model, x)?;
    }
    Ok(())
}

// All six models, in the order of their numbers, which are printed as the rules have them.
fn answer_sheet(rt: &HostRuntime, place: usize, x: &Execution) -> io::Result<()> {
    answer_model(rt, place, 0, &Sc, x)?;
    answer_model(rt, place, 2, &Ptx::Plain, x)?;
    answer_model(rt, place, 3, &Ptx::WithProxies, x)?;
    answer_model(rt, place, 16, &View { below: Sc }, x)?;
    answer_model(rt, place, 18, &View { below: Ptx::Plain }, x)?;
    let below = Ptx::WithProxies;
    answer_model(rt, place, 19, &View { below }, x)
}

// Answers the file at this place of the input.
fn answer(rt: &HostRuntime, place: usize, file: &[u8]) -> io::Result<()> {
    println!(rt; "sheet {place}")?;
    match read(file) {
        Ok(sheet) => answer_sheet(rt, place, &Execution::of(&sheet)),
        Err(fault) => println!(rt; "{fault}"),
    }
}

fn main(rt: HostRuntime) -> io::Result<()> {
    let mut input = Vec::new(rt.alloc());
    rt.stdin().take(LIMIT).read_to_end(&mut input)?;
    for (place, file) in Cases::new(input.as_slice()).enumerate() {
        answer(&rt, place, file)?;
    }
    Ok(())
}
