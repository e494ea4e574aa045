// The audit in three steps with the netlist's tables made once: its beginning, a piece of the test file at a time in file order, its end.
#![tactic(auto)]

pub mod inner;

use model::Refusal;
