// The names of .bench text as keys in lent words: looked up, for our own crates only.
#![tactic(auto)]

pub mod inner;
