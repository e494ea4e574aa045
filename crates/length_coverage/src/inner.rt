// The faults that runs hold by length, for our own crates: each caller proves what a function requires.
pub mod held;
