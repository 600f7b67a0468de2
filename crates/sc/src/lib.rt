// Sequential consistency: all events fit into one sequence that agrees with program order and communication.
#![tactic(auto)]

pub mod axioms;
pub mod basis;
