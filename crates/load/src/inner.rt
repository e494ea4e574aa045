// A vector drawn and its records written, one vector after another. Each caller proves what a function requires.
ghost use Rattle.std.specs.Prelude.{◌≡◌, ◌+◌, ◌-◌, ◌*◌, ◌/◌, ◌%◌, ◌^◌, ◌≤◌, ◌<◌, length};
ghost use Rattle.std.proofs.lemmas.List.Edits.{sets};
ghost use Rattle.load_vectors.specs.Drawing.{state_after};
ghost use Rattle.load.specs.Load.{load_records_of, vector_records};
ghost use Rattle.load.specs.Answers.{vector_size_of};

use load_records::inner::put_test;
use load_vectors::inner::draw_vector;
use record_test::inner::vector_bytes;

// The bytes of one vector's records.
pub fn vector_size(inputs: usize) -> usize
    requires { inputs ≤ 64 }
    ensures { (result ≡ vector_size_of inputs) × (result ≤ 2304) }
{
    let bytes = vector_bytes(inputs);
    inputs * (2 * (2 + 2 * bytes))
}

// The bit of an input.
fn weight(input: usize) -> u64
    requires { input < 64 }
    ensures { result ≡ 2 ^ input }
{
    1u64 << (input as u64)
}

// A vector with one input at 0.
fn lowered(vector: u64, bit: u64, input: usize) -> u64
    requires { bit ≡ 2 ^ input }
    ensures { result ≡ vector - vector / 2 ^ input % 2 * 2 ^ input }
{
    vector - (vector & bit)
}

// Draws a vector from a state and writes its records from a place on: for input 0 upward the rising test, V1 with that input at 0 and V2 with it
// at 1, then the falling one. The state afterwards.
pub fn put_vector(state: u32, inputs: usize, records: &mut [u8], at: usize) -> u32
    requires { (inputs ≤ 64) × (at + vector_size_of inputs ≤ length records.old) }
    ensures value { result ≡ state_after inputs state }
    ensures records_after { records.new ≡ sets records.old at (load_records_of inputs state) }
{
    let drawn = draw_vector(state, inputs);
    let vector = drawn.vector;
    let bytes = vector_bytes(inputs);
    let size = 2 + 2 * bytes;
    let mut place = at;
    for input in 0..inputs {
        let bit = weight(input);
        let low = lowered(vector, bit, input);
        let high = low + bit;
        put_test(records, place, bytes, low, high);
        put_test(records, place + size, bytes, high, low);
        place += 2 * size;
    }
    drawn.state
}

// Writes the records of so many vectors, one after another from the first byte on. The state afterwards.
pub fn put_vectors(state: u32, inputs: usize, vectors: usize, records: &mut [u8]) -> u32
    requires { (inputs ≤ 64) × (vectors * vector_size_of inputs ≤ length records.old) }
    ensures value { result ≡ state_after (vectors * inputs) state }
    ensures records_after { records.new ≡ sets records.old 0 (vector_records inputs vectors state) }
{
    let size = vector_size(inputs);
    let mut last = state;
    for k in 0..vectors {
        last = put_vector(last, inputs, records, k * size);
    }
    last
}
