// The ranges of path numbers that a viewer sees, for our own crates only.
#![tactic(auto)]

pub mod inner;
