// The runs of an interval 2-3 tree below a run, and those above it, as trees, for our own crates only.
#![tactic(auto)]

pub mod inner;
