// The head of an interval 2-3 tree's words, and room for one change: for our own crates only.
#![tactic(auto)]

pub mod inner;
