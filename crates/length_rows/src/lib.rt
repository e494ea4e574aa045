// Rows of 64 numbers, one for each length of a path: what coverage by length means (specs/), and rows added up, for our own crates only.
#![tactic(auto)]

pub mod inner;
