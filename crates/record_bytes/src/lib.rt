// Bytes of records: fields, marks and packed vectors. Only our own crates read and write records by these functions.
#![tactic(auto)]

pub mod inner;
