// Candidate executions as a memory model sees them: the threads and events of a closed sheet, program order and the four
// sets of edges; and the sets and relations of events that models are written in.
#![tactic(auto)]

pub mod class;
pub mod execution;
pub mod facts;
pub mod reading;
pub mod tie;
