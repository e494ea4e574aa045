// The lines of a text, each as the part of the text from a position to a stop.
ghost use Rattle.std.specs.Prelude.{◌≤◌, ◌<◌, length};
ghost use Rattle.bench_lines.specs.LineReading.{EndIs, LineIs};

// Where a line stops, without its end, and where the next one begins.
#[derive(Drop)]
pub struct LineEnds {
    pub stop: usize,
    pub next: usize,
}

// The position of the first 0A from a position on, or the text's length.
fn line_end(text: &[u8], at: usize) -> usize
    requires { at ≤ length text.now }
    ensures { EndIs result at text.now }
{
    for i in at..text.len() {
        if text[i] == 0x0A {
            return i;
        }
    }
    text.len()
}

// The line that begins at a position.
pub fn next_line(text: &[u8], at: usize) -> LineEnds
    requires { at < length text.now }
    ensures { LineIs result at text.now }
{
    let end = line_end(text, at);
    if text.len() <= end {
        return LineEnds {
            stop: end,
            next: end,
        };
    }
    if end <= at {
        return LineEnds {
            stop: end,
            next: end + 1,
        };
    }
    if text[end - 1] == 0x0D {
        return LineEnds {
            stop: end - 1,
            next: end + 1,
        };
    }
    LineEnds {
        stop: end,
        next: end + 1,
    }
}
