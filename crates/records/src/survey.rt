// How many records of each sort a whole file has.
ghost use Rattle.std.specs.Prelude.{◌≡◌, ◌^◌, ◌<◌, Some, Result};
ghost use Rattle.records.specs.declared.fault.Fault.{Fault as Failure};
ghost use Rattle.records.specs.declared.survey.Tally.{Tally as Numbers};
ghost use Rattle.records.specs.Counts.{noted, none, tally_text, Reads};

use crate::fault::Fault;
use crate::mark::Mark;
use crate::reader::Reader;
use std::fmt;

#[derive(Clone, Copy, PartialEq, Eq, Debug)]
pub struct Tally {
    // all records, the ending one too
    pub records: usize,
    pub threads: usize,
    pub events: usize,
    // read-from, order, atomic and depend
    pub edges: usize,
    pub questions: usize,
}

impl Tally {
    // By name and no `Default`, since the specification names the empty tally.
    pub fn none() -> Tally
        ensures { result ≡ none }
    {
        Tally {
            records: 0,
            threads: 0,
            events: 0,
            edges: 0,
            questions: 0,
        }
    }

    // Counts one more record.
    fn note(&mut self, mark: Mark)
        requires { (self.old.records < 2 ^ 63) × ((self.old.threads < 2 ^ 63) × ((self.old.events < 2 ^ 63) × ((self.old.edges < 2 ^ 63) × (self.old.questions < 2 ^ 63)))) }
        ensures { self.new ≡ noted self.old mark }
    {
        self.records += 1;
        match mark {
            Mark::Thread => self.threads += 1,
            Mark::Event => self.events += 1,
            Mark::ReadFrom | Mark::Order | Mark::Atomic | Mark::Depend => self.edges += 1,
            Mark::Question => self.questions += 1,
            Mark::End => {}
        }
    }
}

// `records R threads T events E edges G questions Q`
impl fmt::Display for Tally {
    ghost output = { λ t. Some (tally_text t) };

    fn fmt<W: fmt::Write>(&self, f: &mut fmt::Formatter<W>) -> fmt::Result {
        let Tally {
            records,
            threads,
            events,
            edges,
            questions,
        } = *self;
        write!(
            f,
            "records {records} threads {threads} events {events} edges {edges} questions {questions}"
        )
    }
}

// Reads a file to its end, and tells what it has, or its first fault.
pub fn survey(file: &[u8]) -> Result<Tally, Fault>
    ensures reads { Reads file.now result }
    ensures only { (s : Result Numbers Failure) → Reads file.now s → s ≡ result }
{
    let mut reader = Reader::new(file);
    let mut tally = Tally::none();
    while let Some(record) = reader.next()? {
        tally.note(record.mark);
    }
    Ok(tally)
}
