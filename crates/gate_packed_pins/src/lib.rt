// One gate under one vector, with the values at its pins packed into a byte. Only our own crates call it.
#![tactic(auto)]

pub mod inner;
