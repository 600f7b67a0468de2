// Sheets: candidate executions with their threads, events and edges. An open sheet takes threads and events, a closed one
// edges; each call is accepted, or refused by a number and without effect.
#![tactic(auto)]

pub mod calls;
pub mod closed;
pub mod edges;
pub mod laying;
pub mod open;
pub mod row;
pub mod rules;
pub mod tables;
pub mod trial;
pub mod words;
