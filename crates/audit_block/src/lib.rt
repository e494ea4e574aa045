// The tables of a netlist for blocks of tests, and one block of a test file: its records are read, marked and applied to a store.
#![tactic(auto)]

pub mod inner;
