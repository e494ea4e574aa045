// Coverage by length as a table: a line for each length that has a path, with the paths, the faults held of each edge and the percent of both, then
// the sums. The text is promised by an equation.
#![tactic(auto)]

mod columns;
mod rows;
mod totals;

ghost use Rattle.std.specs.Prelude.{◌≡◌, take};
ghost use Rattle.io.specs.Counts.{IsPrefixLen};
ghost use Rattle.text_buffer.specs.Written.{Written, in_room};
ghost use Rattle.length_text.specs.LengthTable.{table_text, table_bytes};

use crate::rows::{put_row, put_rows};
use crate::totals::total_of;
use text_buffer::inner::put_plain;
use text_line::{empty_line, with_text};

// The least bytes of the buffer that the table is written into: 66 lines of at most 128 bytes and their ends fit.
pub const TABLE_BYTES: usize = 16384;

// Writes the table at the start of a buffer; its length. A buffer that is too short is left as it is, and the answer is 0.
pub fn put_table(
    paths: &[u64; 64],
    rising: &[u64; 64],
    falling: &[u64; 64],
    out: &mut [u8],
) -> usize
    ensures written { Written out.old out.new 0
        (in_room table_bytes out.old (table_text paths.now rising.now falling.now)) result }
    ensures out_after { take result out.new
        ≡ in_room table_bytes out.old (table_text paths.now rising.now falling.now) }
    ensures prefix_len { IsPrefixLen result out.new }
{
    if out.len() < TABLE_BYTES {
        return 0;
    }
    let first = put_plain(
        out,
        0,
        b"length               paths         rising held        falling held  percent",
    );
    let last = put_rows(out, first, paths, rising, falling);
    let all = with_text(empty_line(), b"all");
    put_row(
        out,
        last,
        all,
        total_of(paths),
        total_of(rising),
        total_of(falling),
    )
}
