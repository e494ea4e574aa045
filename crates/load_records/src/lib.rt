// A test record written, for our own crates.
#![tactic(auto)]

pub mod inner;
