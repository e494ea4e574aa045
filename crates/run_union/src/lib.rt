// Lists of runs made in lent words, for our own crates only.
#![tactic(auto)]

pub mod inner;
