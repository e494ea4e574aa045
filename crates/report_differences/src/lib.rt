// What is false in a report whose runs ascend: the numbers that they hold and those of the true report do not, and the other way round, range by
// range, and the first of them that is a false claim. Runs stand in bytes, 16 each, low and high.
#![tactic(auto)]

pub mod inner;
