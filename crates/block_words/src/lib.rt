// Up to 64 test records at a time on a netlist: a word for each net and pin, with a bit for each record, and for each record the list of its live
// gates. Only our own crates call it.
#![tactic(auto)]

pub mod inner;
