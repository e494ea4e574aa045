// The records of a block, one after the other, on a sound store. Only our own crates call it.
#![tactic(auto)]

mod covering;
pub mod inner;
