// The first untested path of a length. Only our own crates call it.
#![tactic(auto)]

pub mod inner;
