// What two lists of runs have in common, for our own crates only.
#![tactic(auto)]

pub mod inner;
