// A test record, from the part of the file that begins at its mark: its checks, its vectors as words, and the edges of its inputs.
// Each caller proves what a function requires.
ghost use Rattle.std.specs.Prelude.{◌≡◌, ◌+◌, ◌*◌, ◌<◌, ◌≤◌, T, length, take};
ghost use Rattle.model.specs.Base.{from_little_endian};
ghost use Rattle.model.specs.Read.{vector_bytes_of, spare_zero_of, some_change_of};
ghost use Rattle.record_test.specs.Records.{RecordTrue, VectorsTrue, EdgesTrue};

use model::Refusal;
use record_bytes::inner::{begins_with, spare_zero, wide};

// V1 and V2, input j in bit j.
#[derive(Drop)]
pub struct Vectors {
    pub v1: u64,
    pub v2: u64,
}

// The inputs that rise and those that fall, input j in bit j.
#[derive(Drop)]
pub struct InputEdges {
    pub rises: u64,
    pub falls: u64,
}

// The bytes of a vector of so many inputs.
pub fn vector_bytes(inputs: usize) -> usize
    requires { inputs ≤ 64 }
    ensures { (result ≡ vector_bytes_of inputs) × (result ≤ 8) }
{
    (inputs + 7) / 8
}

// The bytes of a test record.
pub fn record_length(inputs: usize) -> usize
    requires { inputs ≤ 64 }
    ensures { (result ≡ 2 + 2 * vector_bytes_of inputs) × (2 ≤ result) × (result ≤ 18) }
{
    2 + 2 * vector_bytes(inputs)
}

// Whether some input of a pair is changed. With spare bits of zero an input is changed exactly where a byte is.
fn some_change(v1: &[u8], v2: &[u8], inputs: usize) -> bool
    requires { (inputs ≤ 64) × (vector_bytes_of inputs ≤ length v1.now) × (vector_bytes_of inputs ≤ length v2.now)
        × T (spare_zero_of inputs v1.now) × T (spare_zero_of inputs v2.now) }
    ensures { result ≡ some_change_of inputs v1.now v2.now }
{
    let bytes = vector_bytes(inputs);
    for k in 0..bytes {
        if v1[k] != v2[k] {
            return true;
        }
    }
    false
}

// The checks 30 to 32, then 85.
pub fn check_record(test: &[u8], inputs: usize) -> Result<(), Refusal>
    requires { (1 ≤ inputs) × (inputs ≤ 64) }
    ensures { RecordTrue result inputs test.now }
{
    let bytes = vector_bytes(inputs);
    if test.len() != 2 + 2 * bytes {
        return Err(Refusal::RecordLength);
    }
    let marked = begins_with(test, 2, 0x54, 0x50);
    if !marked {
        return Err(Refusal::RecordMark);
    }
    let v1_zero = spare_zero(&test[2..], inputs);
    if !v1_zero {
        return Err(Refusal::SpareBit);
    }
    let v2_zero = spare_zero(&test[2 + bytes..], inputs);
    if !v2_zero {
        return Err(Refusal::SpareBit);
    }
    let changed = some_change(&test[2..], &test[2 + bytes..], inputs);
    if !changed {
        return Err(Refusal::UnchangedPair);
    }
    Ok(())
}

// The first bytes of a part as a number, low byte first.
fn word_of(part: &[u8], bytes: usize) -> u64
    requires { (bytes ≤ 8) × (bytes ≤ length part.now) }
    ensures { result ≡ from_little_endian (take bytes part.now) }
{
    let mut word: u64 = 0;
    for k in (0..bytes).rev() {
        word = 256 * word + (wide(part[k]) as u64);
    }
    word
}

// The vectors of a legal record.
pub fn read_vectors(test: &[u8], inputs: usize) -> Vectors
    requires { (inputs ≤ 64) × (length test.now ≡ 2 + 2 * vector_bytes_of inputs) }
    ensures { VectorsTrue result inputs test.now }
{
    let bytes = vector_bytes(inputs);
    let v1 = word_of(&test[2..], bytes);
    let v2 = word_of(&test[2 + bytes..], bytes);
    Vectors { v1, v2 }
}

// The edges of the inputs.
pub fn edges_of(tested: Vectors) -> InputEdges
    ensures { EdgesTrue tested result }
{
    let v1 = tested.v1;
    let v2 = tested.v2;
    let moved = v1 ^ v2;
    InputEdges {
        rises: moved & v2,
        falls: moved & v1,
    }
}
