// A case file is a row of records, each a two-byte mark and a body of fixed size. This crate splits a file into its records
// and tells the first fault of its framing.
#![tactic(auto)]

pub mod fault;
pub mod mark;
pub mod question;
pub mod reader;
pub mod reading;
pub mod survey;
