// The outputs of a circuit in .bench text, written as records of a netlist file, for our own crates only.
#![tactic(auto)]

pub mod inner;
