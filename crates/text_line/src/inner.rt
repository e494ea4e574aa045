// Text in a lent buffer. Each caller proves that there is room.
ghost use Rattle.std.specs.Prelude.{◌≡◌, ◌+◌, ◌≤◌, length};
ghost use Rattle.std.proofs.lemmas.List.Edits.{sets};
ghost use Rattle.text_line.specs.Decimal.{decimal_text};

// Writes a text from a place on; the place after it.
pub fn put_text(out: &mut [u8], at: usize, text: &[u8]) -> usize
    requires { at + length text.now ≤ length out.old }
    ensures { (out.new ≡ sets out.old at text.now) × (result ≡ at + length text.now) }
{
    let end = at + text.len();
    out[at..end].copy_from_slice(text);
    end
}

// Writes a number in decimal digits from a place on; the place after it. No number has over 20 digits.
pub fn put_number(out: &mut [u8], at: usize, number: u64) -> usize
    requires { at + 20 ≤ length out.old }
    ensures { (out.new ≡ sets out.old at (decimal_text number)) × (result ≡ at + length (decimal_text number)) }
{
    let mut digits = [0u8; 20];
    let k = io::decimal(number, &mut digits);
    put_text(out, at, &digits[..k])
}
