// What the programs share: plain lines on a descriptor, the sentence of a refusal, and the version. What is written is made by functions that promise it by an
// equation; a function that writes returns nothing, and no contract can say what the system takes.
#![tactic(auto)]

mod conditions;
mod version;

ghost use Rattle.std.specs.Prelude.{◌≡◌, take};
ghost use Rattle.io.specs.Counts.{IsPrefixLen};
ghost use Rattle.text_line.specs.Lines.{text_of};
ghost use Rattle.text_buffer.specs.Written.{plain_line};

pub use conditions::{condition_line, print_condition};
use text_buffer::inner::put_line;
pub use text_line::{LINE_BYTES, Line, empty_line, with_number, with_refusal, with_text};
pub use version::{print_version, version_line};

// The descriptors to which the programs write.
pub const STDOUT_FILENO: i32 = 1;

pub const STDERR_FILENO: i32 = 2;

// One byte more than the longest legal netlist has, so that a longer file is refused as it would be whole.
pub const NETLIST_BYTES: usize = 10485;

// The bytes of a full line with its end.
const ENDED_BYTES: usize = 129;

// A line with its end, as it is written: there is room for the end of a full line, too.
#[derive(Drop)]
pub struct EndedLine {
    pub bytes: [u8; 129],
    pub length: usize,
}

// A line and its end.
pub fn with_end(line: Line) -> EndedLine
    ensures bytes_value { take result.length result.bytes ≡ plain_line (text_of line) }
    ensures prefix_len { IsPrefixLen result.length result.bytes }
{
    let mut bytes = [0u8; ENDED_BYTES];
    let length = put_line(&mut bytes, 0, line);
    EndedLine { bytes, length }
}

// Writes a line and its end.
pub fn print_line(fd: i32, line: Line) {
    let ended = with_end(line);
    let bytes = ended.bytes;
    let length = ended.length;
    print(fd, &bytes[..length]);
}

// Writes a text.
pub fn print(fd: i32, text: &[u8]) {
    io::write_all(fd, text);
}
