// The runs and the faults of a store that a viewer sees, for our own crates only.
#![tactic(auto)]

pub mod inner;
