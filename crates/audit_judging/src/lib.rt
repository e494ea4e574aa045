// The end of an audit: the length of its test file, then its report.
#![tactic(auto)]

pub mod inner;

use model::Refusal;
