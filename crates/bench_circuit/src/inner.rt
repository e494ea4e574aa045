// Each caller proves what a function requires.
pub mod ending;
pub mod judging;
