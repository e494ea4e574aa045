// A caller proves what a function requires.
pub mod net_rows;
pub mod ranks;
