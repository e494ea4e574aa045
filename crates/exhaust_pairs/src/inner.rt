// The pairs of vectors of a few inputs, those of one V1 at a time. Each caller proves what a function requires.
ghost use Rattle.std.specs.Prelude.{◌≡◌, ◌^◌, ◌≤◌, length};
ghost use Rattle.exhaust_pairs.specs.AllPairs.{pairs_with};
ghost use Rattle.exhaust_pairs.specs.Exhaust.{most_inputs};
ghost use Rattle.exhaust_pairs.specs.HeldPairs.{held_pairs};

// The most inputs of a small block.
pub const MOST_INPUTS: usize = 6;

// The number of vectors of a few inputs.
pub fn vectors_of(inputs: usize) -> usize
    requires { inputs ≤ most_inputs }
    ensures { (result ≡ 2 ^ inputs) × (result ≤ 64) }
{
    1usize << (inputs as u64)
}

// Writes the pairs of one V1, V2 counted upward and the pair that is equal skipped: V1 of pair t at place t and V2 at place 64 + t. Their number.
pub fn put_pairs(first: usize, inputs: usize, vectors: &mut [u64; 128]) -> usize
    requires { (inputs ≤ most_inputs) × (length vectors.old ≡ 128) }
    ensures { (result ≤ 64) × (length vectors.new ≡ 128) × (held_pairs vectors.new result ≡ pairs_with first 0 (2 ^ inputs)) }
{
    let count = vectors_of(inputs);
    let mut pairs = 0;
    for second in 0..count {
        if second != first {
            vectors[pairs] = first as u64;
            vectors[64 + pairs] = second as u64;
            pairs += 1;
        }
    }
    pairs
}
