// A test record: its checks, its vectors as words, and the edges of its inputs. Only our own crates call it.
#![tactic(auto)]

pub mod inner;
