// A file read in pieces of whole records, for our own crates only.
#![tactic(auto)]

pub mod inner;
