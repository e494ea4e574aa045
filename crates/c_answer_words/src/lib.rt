// Answer words for C, as a call that was taken writes them: a number, a survey, the rows of coverage by length.
#![tactic(auto)]

pub mod inner;
