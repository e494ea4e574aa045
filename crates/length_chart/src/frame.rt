// What stands around the bars. Each caller proves that there is room.
ghost use Rattle.std.specs.Prelude.{◌+◌, ◌≤◌, length};
ghost use Rattle.text_buffer.specs.Written.{Written};
ghost use Rattle.length_chart.specs.Chart.{head_lines, legend_lines, scale_lines};

use text_buffer::inner::{put_numbered, put_plain};

// The first lines, with the width of the picture.
pub(crate) fn put_head(out: &mut [u8], width: u64) -> usize
    requires { 400 ≤ length out.old }
    ensures { Written out.old out.new 0 (head_lines width) result × (result ≤ 400) }
{
    let size = put_plain(
        out,
        0,
        b"<svg xmlns='http://www.w3.org/2000/svg' font-family='sans-serif' font-size='12'",
    );
    let view = put_numbered(out, size, b"width='", width, b"' height='280'");
    let title = put_numbered(out, view, b"viewBox='0 0 ", width, b" 280'>");
    let ground = put_plain(out, title, b"<title>Coverage by length</title>");
    put_plain(
        out,
        ground,
        b"<rect width='100%' height='100%' fill='white'/>",
    )
}

// What the colours mean. They are told apart by colour-blind people too.
pub(crate) fn put_legend(out: &mut [u8], at: usize) -> usize
    requires { at + 600 ≤ length out.old }
    ensures { Written out.old out.new at legend_lines result × (result ≤ at + 600) }
{
    let rising_name = put_plain(
        out,
        at,
        b"<rect x='10' y='40' width='12' height='12' fill='#0072B2'/>",
    );
    let falling = put_plain(
        out,
        rising_name,
        b"<text x='28' y='51'>rising faults held</text>",
    );
    let falling_name = put_plain(
        out,
        falling,
        b"<rect x='10' y='60' width='12' height='12' fill='#E69F00'/>",
    );
    let all = put_plain(
        out,
        falling_name,
        b"<text x='28' y='71'>falling faults held</text>",
    );
    let all_name = put_plain(
        out,
        all,
        b"<rect x='10' y='80' width='12' height='12' fill='none' stroke='#666'/>",
    );
    put_plain(
        out,
        all_name,
        b"<text x='28' y='91'>faults of all paths</text>",
    )
}

// The heading, lines across the picture at 0, 50 and 100 percent, and what stands along the axes.
pub(crate) fn put_scale(out: &mut [u8], at: usize) -> usize
    requires { at + 500 ≤ length out.old }
    ensures { Written out.old out.new at scale_lines result × (result ≤ at + 500) }
{
    let across = put_plain(
        out,
        at,
        b"<text x='10' y='24' font-weight='bold'>Coverage by length</text>",
    );
    let full = put_plain(
        out,
        across,
        b"<path d='M190 40h9999M190 140h9999M190 240h9999' stroke='#CCC'/>",
    );
    let half = put_plain(
        out,
        full,
        b"<text x='184' y='44' text-anchor='end'>100 %</text>",
    );
    let none = put_plain(
        out,
        half,
        b"<text x='184' y='144' text-anchor='end'>50 %</text>",
    );
    let below = put_plain(
        out,
        none,
        b"<text x='184' y='244' text-anchor='end'>0 %</text>",
    );
    put_plain(
        out,
        below,
        b"<text x='184' y='258' text-anchor='end'>length in gates</text>",
    )
}
