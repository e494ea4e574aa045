// What a block of up to 64 test records tells of each of its records, for whoever takes them one after the other. Only our own crates call it.
#![tactic(auto)]

pub mod inner;
