// The bytes of the report record 52 50: where its fields stand; inner: its fields and the words of its runs, written and compared.
#![tactic(auto)]

pub mod inner;
pub mod layout;
