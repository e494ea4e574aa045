// The vectors of up to 64 records, a word of inputs for each record, turned into a word of records for each input: eight inputs of eight records at a time.
// Each caller proves what a function requires.
ghost use Rattle.std.specs.Prelude.{◌≡◌, ◌+◌, ◌*◌, ◌≤◌, ◌<◌, length};
ghost use Rattle.block_transpose.specs.Vectors.{BitsSpread, Gathered, Scattered, ColumnTransposed, Transposed};

// The bits of a byte, bit i as the lowest bit of byte i of a word. A copy of the byte stands in each byte; there the mask leaves bit i alone, and the sum carries it
// to the byte's top bit.
fn spread_bits(byte: u64) -> u64
    requires { byte < 256 }
    ensures { BitsSpread byte result }
{
    let copies = byte * 0x0101010101010101;
    (((copies & 0x8040201008040201) + 0x00406070787C7E7F) >> 7) & 0x0101010101010101
}

// Eight inputs of eight records: bit t of byte i is bit `shift` + i of vector `first` + t. The last record comes first: each pushes those after it up by a bit.
fn gather_8x8(vectors: &[u64; 128], first: usize, shift: u64) -> u64
    requires { (first + 8 ≤ 128) × (shift ≤ 56) }
    ensures { Gathered vectors.now first shift result }
{
    let mut word: u64 = 0;
    for t in (0..8).rev() {
        word = (word << 1) | spread_bits((vectors[first + t] >> shift) & 255);
    }
    word
}

// Puts the bytes of a word into eight words, at the records from `place` on. Nothing stands there yet.
fn scatter_bytes(word: u64, words: &mut [u64; 64], first: usize, place: u64)
    requires { (first + 8 ≤ 64) × (place ≤ 56) × (length words.old ≡ 64) }
    ensures { Scattered word first place words.old words.new }
{
    let mut left = word;
    for i in 0..8 {
        words[first + i] = words[first + i] | ((left & 255) << place);
        left = left >> 8;
    }
}

// Eight inputs of all records, eight records at a time.
fn transpose_column(
    vectors: &[u64; 128],
    first: usize,
    n: usize,
    byte: usize,
    words: &mut [u64; 64],
)
    requires { (first ≤ 64) × (n ≤ 64) × (byte < 8) × (length words.old ≡ 64) }
    ensures { ColumnTransposed vectors.now first n byte words.old words.new }
{
    for t in (0..n).step_by(8) {
        let word = gather_8x8(vectors, first + t, (8 * byte) as u64);
        scatter_bytes(word, words, 8 * byte, t as u64);
    }
}

// Bit t of word j is bit j of vector t of those from place `first` on, for each input j.
pub fn transpose(vectors: &[u64; 128], first: usize, n: usize, inputs: usize) -> [u64; 64]
    requires { (first ≤ 64) × (n ≤ 64) × (inputs ≤ 64) }
    ensures { Transposed vectors.now first n inputs result }
{
    let mut words = [0u64; 64];
    for byte in 0..inputs.div_ceil(8) {
        transpose_column(vectors, first, n, byte, &mut words);
    }
    words
}
