// One gate under two vectors: what evaluating its net yields, and its open pins in a class. Only our own crates call it.
#![tactic(auto)]

pub mod inner;
