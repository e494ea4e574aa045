// The interval method for one record of a block: the runs of its live nets, by reference and shift, then those of the detected path numbers. Only our own
// crates call it.
#![tactic(auto)]

pub mod inner;
pub mod layout;
mod nets;
