// One line of .bench text: where it ends, its names and signs, the statement that it makes; and names as keys. Only our own crates call it.
#![tactic(auto)]

pub mod inner;
