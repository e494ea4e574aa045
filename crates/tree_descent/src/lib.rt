// From the root of an interval 2-3 tree to a leaf, for our own crates only.
#![tactic(auto)]

pub mod inner;
