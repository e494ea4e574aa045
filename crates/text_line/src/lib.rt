// Lines of text and decimal numbers: what a program prints is put together here, each step with a promise, before it is written.
#![tactic(auto)]

pub mod inner;

ghost use Rattle.std.specs.Prelude.{◌≡◌, [], ◌≤◌, min};
ghost use Rattle.model.specs.Refusals.{refusal_number_of};
ghost use Rattle.text_line.specs.Decimal.{decimal_text, refused_text};
ghost use Rattle.text_line.specs.Lines.{text_of, on_line};

use model::Refusal;
use model_refusals::refusal_number;

// The bytes that a line holds.
pub const LINE_BYTES: usize = 128;

// A line that is put together before it is written, so that it takes one write. What goes past its 128 bytes is lost.
#[derive(Clone, Copy)]
pub struct Line {
    pub bytes: [u8; 128],
    pub length: usize,
}

// A line with nothing on it.
pub fn empty_line() -> Line
    ensures { text_of result ≡ [] }
{
    Line {
        bytes: [0; LINE_BYTES],
        length: 0,
    }
}

// Where the line of a length ends.
fn end_of(length: usize) -> usize
    ensures { (result ≡ min length 128) × (result ≤ 128) }
{
    if LINE_BYTES < length {
        LINE_BYTES
    } else {
        length
    }
}

// The line with a text at its end.
pub fn with_text(line: Line, text: &[u8]) -> Line
    ensures { text_of result ≡ on_line (text_of line) text.now }
{
    let mut longer = line;
    let mut at = end_of(longer.length);
    for byte in text {
        if LINE_BYTES <= at {
            break;
        }
        longer.bytes[at] = *byte;
        at += 1;
    }
    longer.length = at;
    longer
}

// The line with a number at its end, in decimal digits.
pub fn with_number(line: Line, number: u64) -> Line
    ensures { text_of result ≡ on_line (text_of line) (decimal_text number) }
{
    let mut digits = [0u8; 20];
    let k = io::decimal(number, &mut digits);
    with_text(line, &digits[..k])
}

// The line with `refused` and document 01's number at its end.
pub fn with_refusal(line: Line, why: Refusal) -> Line
    ensures { text_of result ≡ on_line (text_of line) (refused_text (refusal_number_of why)) }
{
    with_number(with_text(line, b"refused "), refusal_number(why) as u64)
}
