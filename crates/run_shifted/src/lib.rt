// The runs of places: what a gate's pins, or the outputs, add to a list of runs one after the other, each net's shifted by the paths before it.
// For our own crates only.
#![tactic(auto)]

pub mod inner;
