// The records of a test file on a store.
#![tactic(auto)]

pub mod inner;
