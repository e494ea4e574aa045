// The records of a block with the faults counted that each adds, for our own crates.
#![tactic(auto)]

pub mod inner;
