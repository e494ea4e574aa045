// Which records of a block detect a fault. Only our own crates call it.
#![tactic(auto)]

pub mod inner;
