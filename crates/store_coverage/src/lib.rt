// What a test adds to a store: the detected runs of each edge joined to the store's, both edges written, the faults counted.
#![tactic(auto)]

pub mod inner;

use model::Refusal;

// What a test answers: for each edge the faults new to the store and those then held.
#[derive(Clone, Copy)]
pub struct TestCounts {
    pub new_rising: u64,
    pub new_falling: u64,
    pub held_rising: u64,
    pub held_falling: u64,
}
