// Lines put into a lent buffer, one after the other.
#![tactic(auto)]

pub mod inner;
