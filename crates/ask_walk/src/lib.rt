// Questions read from standard input as they come, and answered piece by piece.
#![tactic(auto)]

pub mod inner;
