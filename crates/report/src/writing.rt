// A report written from a store's words into lent bytes.
ghost use Rattle.std.specs.Prelude.{◌^◌, ◌≤◌, length};
ghost use Rattle.model.specs.Report.{report_buffer_bytes};
ghost use Rattle.store_words.specs.Sound.{SoundWords};
ghost use Rattle.report.specs.ReportWriting.{ReportPut};

use path_faults::Edge;
use report_bytes::inner::writing::{put_head, put_words};
use report_bytes::layout::{HEAD_BYTES, WORD_BYTES};
use store_words::inner::parts::edge_runs;
use store_words::inner::totals_of;

// Writes the report of a sound store; its length.
pub(crate) fn put_report(report: &mut [u8], tests: u64, paths: u64, words: &[u64]) -> usize
    requires report_buffer_bytes_in_bounds { report_buffer_bytes ≤ length report.old }
    requires sound_words { SoundWords (2 ^ 62) words.now }
    ensures { ReportPut result tests paths words.now report.old report.new }
{
    let held = totals_of(words);
    let rising = edge_runs(words, Edge::Rising);
    let falling = edge_runs(words, Edge::Falling);
    put_head(
        report,
        tests,
        paths,
        (rising.len() / 2) as u64,
        (falling.len() / 2) as u64,
        held.rising,
        held.falling,
    );
    let at = HEAD_BYTES + WORD_BYTES * rising.len();
    put_words(report, HEAD_BYTES, rising);
    put_words(report, at, falling);
    at + WORD_BYTES * falling.len()
}
