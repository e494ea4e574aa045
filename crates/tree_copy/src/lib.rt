// An interval 2-3 tree copied into its other space, for our own crates only.
#![tactic(auto)]

pub mod inner;
