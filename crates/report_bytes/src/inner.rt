// The fields before the runs and the words of the runs, for our own crates: a caller proves what a function requires.
pub mod comparing;
pub mod writing;
