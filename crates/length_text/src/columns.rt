// The columns of a line of the table.
ghost use Rattle.std.specs.Prelude.{◌≡◌, ◌-◌, ◌≤◌, length};
ghost use Rattle.text_line.specs.Decimal.{decimal_text};
ghost use Rattle.text_line.specs.Lines.{text_of, on_line};
ghost use Rattle.length_text.specs.LengthTable.{aligned, are_held_of, held_share, row_text};

use model::MAX_COUNT;
use text_buffer::inner::line_length;
use text_line::{Line, empty_line, with_number, with_text};
use text_percent::inner::with_percent;

// A line of a number.
pub(crate) fn number_line(number: u64) -> Line
    ensures { text_of result ≡ decimal_text number }
{
    with_number(empty_line(), number)
}

// How many blanks fill a column.
fn blanks_before(width: usize, length: usize) -> usize
    ensures { result ≡ width - length }
{
    if length < width {
        return width - length;
    }
    0
}

// The line with a text at its end, at the right edge of a column.
fn with_aligned(line: Line, width: usize, text: Line) -> Line
    requires { width ≤ 20 }
    ensures { text_of result ≡ on_line (text_of line) (aligned width (text_of text)) }
{
    let end = line_length(text);
    let bytes = text.bytes;
    let blanks = [b' '; 20];
    let gap = blanks_before(width, end);
    let start = with_text(line, &blanks[..gap]);
    with_text(start, &bytes[..end])
}

// Whether the numbers are those of a circuit's paths and of held faults of theirs.
fn are_held(paths: u64, rising: u64, falling: u64) -> bool
    ensures { result ≡ are_held_of paths rising falling }
{
    if paths == 0 {
        return false;
    }
    if MAX_COUNT < paths {
        return false;
    }
    if paths < rising {
        return false;
    }
    falling <= paths
}

// A line of the percent of the faults of both edges that are held.
fn share_line(paths: u64, rising: u64, falling: u64) -> Line
    ensures { text_of result ≡ held_share paths rising falling }
{
    if are_held(paths, rising, falling) {
        return with_percent(empty_line(), rising + falling, 2 * paths);
    }
    with_text(empty_line(), b"-")
}

// A line of the table.
pub(crate) fn row_line(name: Line, paths: u64, rising: u64, falling: u64) -> Line
    requires { length (text_of name) ≤ 20 }
    ensures { text_of result ≡ row_text (text_of name) paths rising falling }
{
    let named = with_aligned(empty_line(), 6, name);
    let counted = with_aligned(named, 20, number_line(paths));
    let first = with_aligned(counted, 20, number_line(rising));
    let both = with_aligned(first, 20, number_line(falling));
    with_aligned(both, 9, share_line(paths, rising, falling))
}
