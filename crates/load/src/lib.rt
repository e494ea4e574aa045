// A test load that anyone can repeat: vectors drawn by a generator of 32 bits, each with a rising and a falling test for every input.
#![tactic(auto)]

pub mod inner;

ghost use Rattle.std.specs.Prelude.{◌≡◌};
ghost use Rattle.model.specs.Read.{within};
ghost use Rattle.load.specs.Answers.{LoadTrue};

use crate::inner::{put_vector, vector_size};
use model::Refusal;

// The least bytes of a buffer for one vector's records.
pub const LOAD_BYTES: usize = 2304;

// The state afterwards, and the bytes of the records that were written.
#[derive(Drop)]
pub struct LoadWritten {
    pub state: u32,
    pub length: usize,
}

// Whether a load can have so many inputs.
pub fn inputs_fit(inputs: u32) -> bool
    ensures { result ≡ within 1 64 inputs }
{
    if inputs < 1 {
        return false;
    }
    inputs <= 64
}

// Writes the records of one vector, drawn from a state: for input 0 upward a rising test and a falling one. A refused call leaves the bytes as they
// were; no call writes past the records.
pub fn write_load(state: u32, inputs: u32, records: &mut [u8]) -> Result<LoadWritten, Refusal>
    ensures { LoadTrue result state inputs records.old records.new }
{
    if records.len() < LOAD_BYTES {
        return Err(Refusal::ReportBufferLength);
    }
    let fit = inputs_fit(inputs);
    if !fit {
        return Err(Refusal::HeaderRange);
    }
    let count = inputs as usize;
    let after = put_vector(state, count, records, 0);
    Ok(LoadWritten {
        state: after,
        length: vector_size(count),
    })
}
