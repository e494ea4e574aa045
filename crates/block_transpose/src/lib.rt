// The vectors of a block's records, turned into a word of records for each input. Only our own crates call it.
#![tactic(auto)]

pub mod inner;
