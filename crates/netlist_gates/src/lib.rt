// The records of the gates of a netlist file. Only our own crates call it.
#![tactic(auto)]

pub mod inner;
