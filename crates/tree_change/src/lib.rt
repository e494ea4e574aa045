// Runs inserted into an interval 2-3 tree and deleted from it, for our own crates only.
#![tactic(auto)]

pub mod inner;
