// A caller proves what a function requires.
pub mod outputs;
pub mod pins;
