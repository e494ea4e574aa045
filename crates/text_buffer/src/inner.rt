// Each caller proves that there is room. A function puts one line, with its end, from a place on; it returns the place after it.
ghost use Rattle.std.specs.Prelude.{◌≡◌, ◌+◌, ◌≤◌, length};
ghost use Rattle.text_line.specs.Lines.{text_of};
ghost use Rattle.text_buffer.specs.Written.{Written, number_line, plain_line};

use text_line::inner::{put_number, put_text};
use text_line::{LINE_BYTES, Line};

// How many bytes are on a line.
pub fn line_length(line: Line) -> usize
    ensures { (result ≡ length (text_of line)) × (result ≤ 128) }
{
    if LINE_BYTES < line.length {
        return LINE_BYTES;
    }
    line.length
}

// A text.
pub fn put_plain(out: &mut [u8], at: usize, text: &[u8]) -> usize
    requires { at + length text.now + 1 ≤ length out.old }
    ensures { Written out.old out.new at (plain_line text.now) result
        × (result ≡ at + length text.now + 1) }
{
    let end = put_text(out, at, text);
    put_text(out, end, b"\n")
}

// What was put together on a line.
pub fn put_line(out: &mut [u8], at: usize, line: Line) -> usize
    requires { at + 129 ≤ length out.old }
    ensures { Written out.old out.new at (plain_line (text_of line)) result × (result ≤ at + 129) }
{
    let end = line_length(line);
    let bytes = line.bytes;
    put_plain(out, at, &bytes[..end])
}

// A number between two texts.
pub fn put_numbered(out: &mut [u8], at: usize, before: &[u8], number: u64, after: &[u8]) -> usize
    requires { at + length before.now + length after.now + 21 ≤ length out.old }
    ensures { Written out.old out.new at (number_line before.now number after.now) result
        × (result ≤ at + length before.now + length after.now + 21) }
{
    let digits = put_text(out, at, before);
    let rest = put_number(out, digits, number);
    put_plain(out, rest, after)
}
