// Coverage by length as a picture in SVG: for each length that has a path two bars, the rising and the falling faults held, in an outline of all. The
// text is promised by an equation.
#![tactic(auto)]

mod bars;
mod frame;
mod measures;

ghost use Rattle.std.specs.Prelude.{◌≡◌, take};
ghost use Rattle.io.specs.Counts.{IsPrefixLen};
ghost use Rattle.text_buffer.specs.Written.{Written, in_room};
ghost use Rattle.length_chart.specs.Chart.{chart_text, chart_bytes};

use crate::bars::put_lengths;
use crate::frame::{put_head, put_legend, put_scale};
use crate::measures::width_of;
use text_buffer::inner::put_plain;

// The least bytes of the buffer that the picture is written into.
pub const CHART_BYTES: usize = 65536;

// Writes the picture at the start of a buffer; its length. A buffer that is too short is left as it is, and the answer is 0.
pub fn put_chart(
    paths: &[u64; 64],
    rising: &[u64; 64],
    falling: &[u64; 64],
    out: &mut [u8],
) -> usize
    ensures written { Written out.old out.new 0
        (in_room chart_bytes out.old (chart_text paths.now rising.now falling.now)) result }
    ensures out_after { take result out.new
        ≡ in_room chart_bytes out.old (chart_text paths.now rising.now falling.now) }
    ensures prefix_len { IsPrefixLen result out.new }
{
    if out.len() < CHART_BYTES {
        return 0;
    }
    let legend = put_head(out, width_of(paths));
    let scale = put_legend(out, legend);
    let first = put_scale(out, scale);
    let end = put_lengths(out, first, paths, rising, falling);
    put_plain(out, end, b"</svg>")
}
