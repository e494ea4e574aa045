// Each caller proves what a function requires.
pub mod keys;
pub mod lines;
pub mod statements;
mod tokens;
