// The one walk over a test file that is audited or reported: read in pieces, so that it may be of any length. For our own crates only.
#![tactic(auto)]

pub mod inner;
