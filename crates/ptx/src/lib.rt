// The PTX memory model, plain and with proxies, as one text.
#![tactic(auto)]

pub mod axioms;
pub mod basis;
pub mod crossing;
pub mod flavour;
pub mod generic;
pub mod syncing;
