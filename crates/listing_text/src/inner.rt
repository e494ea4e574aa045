// The lines after those of the records: the runs of each edge, the totals. Each caller proves what a function requires.
ghost use Rattle.std.specs.Prelude.{◌≡◌, ◌++◌, ◌+◌, ◌*◌, ◌/◌, ◌^◌, ◌≤◌, length};
ghost use Rattle.model.specs.Path as path;
ghost use Rattle.model.specs.Store.{store_runs};
ghost use Rattle.store_words.specs.Sound.{SoundWords};
ghost use Rattle.text_buffer.specs.Written.{Written};
ghost use Rattle.listing_lines.specs.ListingLines.{pair_text};
ghost use Rattle.listing_text.specs.Listing.{run_lines, rising_letter, falling_letter, totals_lines, store_lines};
ghost use Rattle.listing_text.specs.StoreText.{out_bytes, edge_bytes, runs_in};

use listing_lines::inner::put_pair;
use path_faults::Edge;
use store_words::inner::parts::edge_runs;
use store_words::inner::totals_of;
use text_buffer::inner::put_numbered;
use text_line::inner::put_text;

// The bytes of the buffer that the text is written into: room for many lines of records, and for all lines after those.
pub const OUT_BYTES: usize = 131072;

// A line for one run, with the letter of its edge and a space in front.
fn put_run(out: &mut [u8], at: usize, letter: &[u8], low: u64, high: u64) -> usize
    requires { at + length letter.now + 42 ≤ length out.old }
    ensures { Written out.old out.new at (letter.now ++ pair_text low high) result }
{
    let numbers = put_text(out, at, letter);
    put_pair(out, numbers, low, high)
}

// A line for each run, of two words, put at a place. A line has at most 44 bytes.
fn put_runs(out: &mut [u8], start: usize, letter: &[u8], runs: &[u64]) -> usize
    requires { (length letter.now ≡ 2) × (start + 44 * (length runs.now / 2) ≤ length out.old) }
    ensures { Written out.old out.new start (run_lines letter.now (runs_in runs.now)) result
        × (result ≤ start + 44 * (length runs.now / 2)) }
{
    let mut at = start;
    for k in 0..runs.len() / 2 {
        at = put_run(out, at, letter, runs[2 * k], runs[2 * k + 1]);
    }
    at
}

// The lines of the rising runs of a sound store, at the start of the buffer. An edge has at most 1,024 runs.
fn put_rising(out: &mut [u8], words: &[u64]) -> usize
    requires { SoundWords (2 ^ 62) words.now × (out_bytes ≤ length out.old) }
    ensures { Written out.old out.new 0 (run_lines rising_letter (store_runs words.now path.rising)) result × (result ≤ edge_bytes) }
{
    put_runs(out, 0, b"R ", edge_runs(words, Edge::Rising))
}

// The lines of the falling runs, at a place.
fn put_falling(out: &mut [u8], start: usize, words: &[u64]) -> usize
    requires { SoundWords (2 ^ 62) words.now × (start + edge_bytes ≤ length out.old) }
    ensures { Written out.old out.new start (run_lines falling_letter (store_runs words.now path.falling)) result × (result ≤ start + edge_bytes) }
{
    put_runs(out, start, b"F ", edge_runs(words, Edge::Falling))
}

// The lines of the totals of a sound store, at a place.
fn put_totals(out: &mut [u8], start: usize, words: &[u64]) -> usize
    requires { SoundWords (2 ^ 62) words.now × (start + 57 ≤ length out.old) }
    ensures { Written out.old out.new start (totals_lines words.now) result }
{
    let held = totals_of(words);
    let mid = put_numbered(out, start, b"rising ", held.rising, b"");
    put_numbered(out, mid, b"falling ", held.falling, b"")
}

// The lines after those of the records: the runs of each edge and the totals.
pub fn put_store(out: &mut [u8], words: &[u64]) -> usize
    requires { SoundWords (2 ^ 62) words.now × (out_bytes ≤ length out.old) }
    ensures { Written out.old out.new 0 (store_lines words.now) result }
{
    let falling = put_rising(out, words);
    let totals = put_falling(out, falling, words);
    put_totals(out, totals, words)
}
