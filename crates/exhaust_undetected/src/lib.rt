// The faults that a store does not hold, for our own crates: how many there are, and the first of them.
#![tactic(auto)]

pub mod inner;
