// Fields of bytes low byte first, marks, and the spare bits of packed vectors. Each caller proves what a function requires.
ghost use Rattle.std.specs.Prelude.{◌≡◌, ◌&&◌, ◌+◌, ◌≤◌, ◌<◌, length, take, drop, leb};
ghost use Rattle.std.proofs.lemmas.List.Edits.{sets};
ghost use Rattle.model.specs.Base.{little_endian, field};
ghost use Rattle.model.specs.Read.{marked, vector_bytes_of, spare_zero_of};
ghost use Rattle.model.specs.Report.{same_bytes};

// A byte as a number of full width.
pub fn wide(x: u8) -> usize
    ensures { (result ≡ x) × (result < 256) }
{
    x as usize
}

// A 16-bit word as a number of full width.
pub fn wide_word(x: u16) -> usize
    ensures { (result ≡ x) × (result < 65536) }
{
    x as usize
}

// The field of two bytes at a place.
pub fn u16_at(s: &[u8], at: usize) -> usize
    requires { at + 1 < length s.now }
    ensures { (result ≡ field at 2 s.now) × (result < 65536) }
{
    let low = wide(s[at]);
    let high = wide(s[at + 1]);
    low + 256 * high
}

// Whether a part has at least so many bytes and begins with a mark.
pub fn begins_with(s: &[u8], least: usize, first: u8, second: u8) -> bool
    requires { 2 ≤ least }
    ensures { result ≡ leb least (length s.now) && marked first second s.now }
{
    if s.len() < least {
        return false;
    }
    if s[0] != first {
        return false;
    }
    s[1] == second
}

// Whether the spare bits of a packed vector are zero. Bytes after the vector are not looked at.
pub fn spare_zero(vector: &[u8], inputs: usize) -> bool
    requires { (0 < inputs) × (vector_bytes_of inputs ≤ length vector.now) }
    ensures { result ≡ spare_zero_of inputs vector.now }
{
    let used = (inputs & 7) as u8;
    if used == 0 {
        return true;
    }
    vector[inputs >> 3] & (255u8 << used) == 0
}

// Writes the k low bytes of a number from a place on.
pub fn put(s: &mut [u8], at: usize, k: usize, number: u64)
    requires { at + k ≤ length s.old }
    ensures { s.new ≡ sets s.old at (little_endian k number) }
{
    let mut rest = number;
    for i in 0..k {
        s[at + i] = (rest % 256) as u8;
        rest = rest / 256;
    }
}

// Whether the k bytes from a place on are the k low bytes of a number.
pub fn same(s: &[u8], at: usize, k: usize, number: u64) -> bool
    requires { at + k ≤ length s.now }
    ensures { result ≡ same_bytes (take k (drop at s.now)) (little_endian k number) }
{
    let mut rest = number;
    for i in 0..k {
        if s[at + i] as u64 != rest % 256 {
            return false;
        }
        rest = rest / 256;
    }
    true
}
