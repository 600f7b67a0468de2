// Open pairs, and completions: one order edge for each open pair.
#![tactic(auto)]

pub mod completing;
pub mod listing;
pub mod pairs;
