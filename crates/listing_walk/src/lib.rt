// The walk over a test file whose records are listed, for the listing program.
#![tactic(auto)]

pub mod inner;
