// The words of a store, written: for our own crates only.
#![tactic(auto)]

pub mod inner;
