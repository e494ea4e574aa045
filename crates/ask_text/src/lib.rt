// Questions for faults, one on each line of a text, and their answers as text.
#![tactic(auto)]

pub mod inner;
