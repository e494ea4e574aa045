// The language of the cases: what a line of a script says, its words, numbers and bytes and the answer that it states, which is compared and counted;
// and the memories by their names, which lines set and ask about and of which the calls are handed parts. For the program `cases` only.
#![tactic(auto)]

pub mod answers;
pub mod cells;
pub mod chains;
pub mod copies;
pub mod memory;
pub mod names;
pub mod numbers;
pub mod pages;
pub mod words;
