// Whether words are an interval 2-3 tree, for our own crates only.
#![tactic(auto)]

pub mod inner;
