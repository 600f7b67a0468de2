// Case files: a sheet and questions about it, as records.
#![tactic(auto)]

pub mod case;
pub mod fault;
pub mod input;
pub mod printing;
pub mod stepping;
