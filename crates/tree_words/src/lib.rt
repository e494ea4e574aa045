// The words of an interval 2-3 tree: its layout and its nodes, for our own crates only.
#![tactic(auto)]

pub mod inner;
