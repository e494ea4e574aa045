// The walk along two lists of runs and the first false claim, for our own crates.
pub mod first;
pub mod walk;
