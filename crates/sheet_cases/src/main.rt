// Answers many case files, given one after another, each behind its length in two bytes, low byte first. What it prints is
// compared with what an independent reader says of the same files.
#![tactic(auto)]

use casefile::fault::Fault;
use casefile::input::read;
use cases::Cases;
use records::survey::survey;
use std::io;
use std::io::Read;

const LIMIT: u64 = 1048576;

fn answer(rt: &HostRuntime, file: &[u8]) -> io::Result<()> {
    if let Err(fault) = read(file) {
        return println!(rt; "{fault}");
    }
    match survey(file) {
        Ok(tally) => println!(rt; "{tally}"),
        Err(_) => println!(rt; "read, and yet broken"),
    }
}

// The programs of stored cases share the row of cases; a shared `main` would take `answer` as a closure, for five lines.
fn main(rt: HostRuntime) -> io::Result<()> {
    let mut input = Vec::new(rt.alloc());
    rt.stdin().take(LIMIT).read_to_end(&mut input)?;
    for file in Cases::new(input.as_slice()) {
        answer(&rt, file)?;
    }
    Ok(())
}
