// How many paths up to a number have each length: the rows of the nets, and the descent from an output, for our own crates only.
#![tactic(auto)]

pub mod inner;
