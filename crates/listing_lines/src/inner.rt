// Each caller proves what a function requires. A function puts lines from a place on, and returns the place after them.
ghost use Rattle.std.specs.Prelude.{◌+◌, ◌*◌, ◌^◌, ◌≤◌, ◌<◌, length};
ghost use Rattle.model.specs.Refusals.{refusal_number_of};
ghost use Rattle.text_buffer.specs.Written.{Written};
ghost use Rattle.listing_lines.specs.ListingLines.{pair_text, paths_line, refused_line_of, record_line, answer_in, answer_lines};

use model::Refusal;
use model_refusals::refusal_number;
use text_buffer::inner::put_numbered;
use text_line::inner::{put_number, put_text};

// Two numbers and the end of their line.
pub fn put_pair(out: &mut [u8], at: usize, first: u64, second: u64) -> usize
    requires { at + 42 ≤ length out.old }
    ensures { Written out.old out.new at (pair_text first second) result }
{
    let space = put_number(out, at, first);
    let number = put_text(out, space, b" ");
    let end = put_number(out, number, second);
    put_text(out, end, b"\n")
}

// The line `refused` and the number of a refusal.
pub fn put_refusal(out: &mut [u8], at: usize, why: Refusal) -> usize
    requires { at + 29 ≤ length out.old }
    ensures { Written out.old out.new at (refused_line_of (refusal_number_of why)) result }
{
    put_numbered(out, at, b"refused ", refusal_number(why) as u64, b"")
}

// The line `paths` and their number.
pub fn put_paths(out: &mut [u8], paths: u64) -> usize
    requires { 27 ≤ length out.old }
    ensures { Written out.old out.new 0 (paths_line paths) result }
{
    put_numbered(out, 0, b"paths ", paths, b"")
}

// The line of a test record: its place with what it added, or with the number of its refusal, which is else 0.
fn put_line(
    out: &mut [u8],
    at: usize,
    place: u64,
    new_rising: u64,
    new_falling: u64,
    refusal: u64,
) -> usize
    requires { at + 63 ≤ length out.old }
    ensures { Written out.old out.new at (record_line place (answer_in new_rising new_falling refusal)) result }
{
    let space = put_number(out, at, place);
    let rest = put_text(out, space, b" ");
    if refusal == 0 {
        return put_pair(out, rest, new_rising, new_falling);
    }
    put_numbered(out, rest, b"refused ", refusal, b"")
}

// The lines of so many answers, the first of which has the place given.
pub fn put_lines(
    out: &mut [u8],
    start: usize,
    first: u64,
    answers: &[u64; 192],
    lines: usize,
) -> usize
    requires { (lines ≤ 64) × (start + 63 * lines ≤ length out.old) × (first + lines < 2 ^ 64) }
    ensures { Written out.old out.new start (answer_lines first answers.now lines) result }
{
    let mut at = start;
    let mut place = first;
    for t in 0..lines {
        at = put_line(
            out,
            at,
            place,
            answers[t],
            answers[64 + t],
            answers[128 + t],
        );
        place += 1;
    }
    at
}
