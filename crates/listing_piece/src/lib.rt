// The records of one piece of a test file listed; the lines are written whenever the buffer is full.
#![tactic(auto)]

pub mod inner;
