// The bars of each length. Each caller proves that there is room.
ghost use Rattle.std.specs.Prelude.{◌+◌, ◌*◌, ◌≤◌, ◌<◌, length};
ghost use Rattle.text_buffer.specs.Written.{Written, each_below_of};
ghost use Rattle.length_chart.specs.Chart.{title_lines, bar_lines, length_bars, bars_at};

use crate::measures::height_of;
use text_buffer::inner::{put_numbered, put_plain};

// The numbers of a length, which a browser shows where one points at its bars.
fn put_title(out: &mut [u8], at: usize, gates: u64, paths: u64, rising: u64, falling: u64) -> usize
    requires { at + 150 ≤ length out.old }
    ensures { Written out.old out.new at (title_lines gates paths rising falling) result × (result ≤ at + 150) }
{
    let counted = put_numbered(out, at, b"<title>length ", gates, b":");
    let first = put_numbered(out, counted, b"", paths, b" paths,");
    let second = put_numbered(out, first, b"", rising, b" rising and");
    put_numbered(out, second, b"", falling, b" falling faults held</title>")
}

// The outlines and bars of a length, from the place of its bars on.
fn put_pair(out: &mut [u8], at: usize, rising: u64, falling: u64) -> usize
    requires { at + 200 ≤ length out.old }
    ensures { Written out.old out.new at (bar_lines rising falling) result × (result ≤ at + 200) }
{
    let first = put_plain(
        out,
        at,
        b"<path d='M0 0v-200h8v200zM10 0v-200h8v200z' fill='none' stroke='#666'/>",
    );
    let second = put_numbered(
        out,
        first,
        b"<path d='M0 0v-",
        rising,
        b"h8V0z' fill='#0072B2'/>",
    );
    put_numbered(
        out,
        second,
        b"<path d='M10 0v-",
        falling,
        b"h8V0z' fill='#E69F00'/>",
    )
}

// What is drawn for a length; nothing where it has no path.
fn put_length(out: &mut [u8], at: usize, gates: u64, paths: u64, rising: u64, falling: u64) -> usize
    requires { (at + 500 ≤ length out.old) × (gates < 64) }
    ensures { Written out.old out.new at (length_bars gates paths rising falling) result × (result ≤ at + 500) }
{
    if paths == 0 {
        return at;
    }
    let title = put_numbered(
        out,
        at,
        b"<g transform='translate(",
        200 + 24 * gates,
        b" 240)'>",
    );
    let label = put_title(out, title, gates, paths, rising, falling);
    let bars = put_numbered(
        out,
        label,
        b"<text x='9' y='18' text-anchor='middle'>",
        gates,
        b"</text>",
    );
    let end = put_pair(
        out,
        bars,
        height_of(rising, paths),
        height_of(falling, paths),
    );
    put_plain(out, end, b"</g>")
}

// What is drawn for all lengths.
pub(crate) fn put_lengths(
    out: &mut [u8],
    start: usize,
    paths: &[u64; 64],
    rising: &[u64; 64],
    falling: &[u64; 64],
) -> usize
    requires { start + 32000 ≤ length out.old }
    ensures { Written out.old out.new start (each_below_of (bars_at paths.now rising.now falling.now) 64) result
        × (result ≤ start + 32000) }
{
    let mut at = start;
    for i in 0..64 {
        at = put_length(out, at, i as u64, paths[i], rising[i], falling[i]);
    }
    at
}
