// The pins and the outputs that the numbers of paths go through, for our own crates only.
#![tactic(auto)]

pub mod inner;
