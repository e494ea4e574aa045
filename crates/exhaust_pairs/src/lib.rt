// Every legal pair of vectors of a small block: the words of the vectors, for our own crates, and what applying them shows (proofs/ExhaustHolds).
#![tactic(auto)]

pub mod inner;
