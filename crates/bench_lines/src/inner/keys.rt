// Names of at most 16 bytes as two words each, and lists of them in lent words.
ghost use Rattle.std.specs.Prelude.{◌≡◌, ◌&&◌, ◌+◌, ◌*◌, ◌≤◌, ◌<◌, eqb, length, get_or, set};
ghost use Rattle.model.specs.Base.{from_little_endian};
ghost use Rattle.bench_lines.specs.LineReading.{part};
ghost use Rattle.bench_lines.specs.Keys.{key_of, key_place};

// A name's bytes low byte first: the first eight, and those after them.
#[derive(Drop)]
pub struct NameKey {
    pub low: u64,
    pub high: u64,
}

// At most eight bytes as a number, low byte first.
fn bytes_value(line: &[u8], from: usize, to: usize) -> u64
    requires { (from ≤ to) × (to ≤ length line.now) × (to ≤ from + 8) }
    ensures { result ≡ from_little_endian (part from to line.now) }
{
    let mut value: u64 = 0;
    for at in (from..to).rev() {
        let byte = line[at] as u64;
        value = 256 * value + byte;
    }
    value
}

// The key of the name from a position to another.
pub fn key_at(line: &[u8], from: usize, to: usize) -> NameKey
    requires { (from ≤ to) × (to ≤ length line.now) × (to ≤ from + 16) }
    ensures { result ≡ key_of (part from to line.now) }
{
    if to - from <= 8 {
        let low = bytes_value(line, from, to);
        return NameKey { low, high: 0 };
    }
    let middle = from + 8;
    let low = bytes_value(line, from, middle);
    let high = bytes_value(line, middle, to);
    NameKey { low, high }
}

// Whether the two words at a place are a key.
fn same_key(words: &[u64], at: usize, low: u64, high: u64) -> bool
    requires { at + 1 < length words.now }
    ensures { result ≡ eqb (get_or words.now at 0) low && eqb (get_or words.now (at + 1) 0) high }
{
    if words[at] != low {
        return false;
    }
    words[at + 1] == high
}

// The place of a key among n keys, or n if it is not there.
pub fn find_key(words: &[u64], n: usize, low: u64, high: u64) -> usize
    requires { 2 * n ≤ length words.now }
    ensures { result ≡ key_place low high n 0 words.now }
{
    for i in 0..n {
        let same = same_key(words, 2 * i, low, high);
        if same {
            return i;
        }
    }
    n
}

// Puts a key after n keys.
pub fn put_key(words: &mut [u64], n: usize, low: u64, high: u64)
    requires { 2 * n + 1 < length words.old }
    ensures { words.new ≡ set (set words.old (2 * n) low) (2 * n + 1) high }
{
    words[2 * n] = low;
    words[2 * n + 1] = high;
}
