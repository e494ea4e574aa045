// The lines of the table, put into a buffer. Each caller proves that there is room.
ghost use Rattle.std.specs.Prelude.{◌+◌, ◌≤◌, length};
ghost use Rattle.text_line.specs.Lines.{text_of};
ghost use Rattle.text_buffer.specs.Written.{Written, plain_line, each_below_of};
ghost use Rattle.length_text.specs.LengthTable.{row_text, length_row, row_at};

use crate::columns::{number_line, row_line};
use text_buffer::inner::put_line;
use text_line::Line;

// A line with a name in front.
pub(crate) fn put_row(
    out: &mut [u8],
    at: usize,
    name: Line,
    paths: u64,
    rising: u64,
    falling: u64,
) -> usize
    requires { (at + 129 ≤ length out.old) × (length (text_of name) ≤ 20) }
    ensures { Written out.old out.new at (plain_line (row_text (text_of name) paths rising falling)) result × (result ≤ at + 129) }
{
    put_line(out, at, row_line(name, paths, rising, falling))
}

// The line of a length; none where it has no path.
fn put_length(
    out: &mut [u8],
    at: usize,
    gates: usize,
    paths: u64,
    rising: u64,
    falling: u64,
) -> usize
    requires { at + 129 ≤ length out.old }
    ensures { Written out.old out.new at (length_row gates paths rising falling) result × (result ≤ at + 129) }
{
    if paths == 0 {
        return at;
    }
    put_row(out, at, number_line(gates as u64), paths, rising, falling)
}

// The lines of all lengths.
pub(crate) fn put_rows(
    out: &mut [u8],
    start: usize,
    paths: &[u64; 64],
    rising: &[u64; 64],
    falling: &[u64; 64],
) -> usize
    requires { start + 8256 ≤ length out.old }
    ensures { Written out.old out.new start (each_below_of (row_at paths.now rising.now falling.now) 64) result
        × (result ≤ start + 8256) }
{
    let mut at = start;
    for i in 0..64 {
        at = put_length(out, at, i, paths[i], rising[i], falling[i]);
    }
    at
}
