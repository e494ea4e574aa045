// Two interval 2-3 trees as one, for our own crates only.
#![tactic(auto)]

pub mod inner;
