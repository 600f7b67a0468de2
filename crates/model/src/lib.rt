// The interface of memory models, and the view layer over any of them.
#![tactic(auto)]

pub mod axiom_kind;
pub mod interface;
pub mod view;
