// The interval method: the runs of every net's set for one edge, then those of the detected path numbers.
#![tactic(auto)]

pub mod inner;
mod nets;
