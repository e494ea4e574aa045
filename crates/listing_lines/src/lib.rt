// The lines of a listing that tell of the paths, of a refusal and of test records, put into a lent buffer.
#![tactic(auto)]

pub mod inner;
