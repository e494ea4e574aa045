// The words of a store, asked: for our own crates only.
#![tactic(auto)]

pub mod inner;
