// The circuit that the lines of .bench text define, judged line by line. Only our own crates call it.
#![tactic(auto)]

pub mod inner;
