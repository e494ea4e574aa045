// The records of a piece of a test file listed, block after block, as far as a lent buffer has room for their lines.
#![tactic(auto)]

mod blocks;
pub mod inner;
