// A report compared with a store's words in place, for our own crates.
ghost use Rattle.std.specs.Prelude.{◌≡◌, ◌^◌};
ghost use Rattle.model.specs.Base.{checks};
ghost use Rattle.model.specs.Store.{runs_by_edge};
ghost use Rattle.model.specs.Report.{same_bytes, report_record, report_rules};
ghost use Rattle.store_words.specs.Sound.{SoundWords};
ghost use Rattle.model.specs.Returned.{answer_of};

use model::Refusal;
use path_faults::Edge;
use record_bytes::inner::{begins_with, u16_at};
use report_bytes::inner::comparing::{same_head, same_words};
use report_bytes::layout::{FALLING_RUNS_AT, HEAD_BYTES, RISING_RUNS_AT, RUN_BYTES, WORD_BYTES};
use store_words::inner::parts::edge_runs;
use store_words::inner::totals_of;

// Whether the bytes are the report of a sound store.
fn same_report(report: &[u8], words: &[u64], tests: u64, paths: u64) -> bool
    requires { SoundWords (2 ^ 62) words.now }
    ensures { result ≡ same_bytes report.now (report_record tests paths (runs_by_edge words.now)) }
{
    let held = totals_of(words);
    let rising = edge_runs(words, Edge::Rising);
    let falling = edge_runs(words, Edge::Falling);
    let at = HEAD_BYTES + WORD_BYTES * rising.len();
    if report.len() != at + WORD_BYTES * falling.len() {
        return false;
    }
    if !same_head(
        report,
        tests,
        paths,
        (rising.len() / 2) as u64,
        (falling.len() / 2) as u64,
        held.rising,
        held.falling,
    ) {
        return false;
    }
    if !same_words(report, HEAD_BYTES, rising) {
        return false;
    }
    same_words(report, at, falling)
}

// The checks of a report against the one that the writer gives for a sound store.
pub fn compare(report: &[u8], words: &[u64], tests: u64, paths: u64) -> Result<(), Refusal>
    requires { SoundWords (2 ^ 62) words.now }
    ensures { answer_of result ≡ checks (report_rules report.now (report_record tests paths (runs_by_edge words.now))) }
{
    if !begins_with(report, HEAD_BYTES, 0x52, 0x50) {
        return Err(Refusal::ReportMark);
    }
    let runs = u16_at(report, RISING_RUNS_AT) + u16_at(report, FALLING_RUNS_AT);
    if report.len() != HEAD_BYTES + RUN_BYTES * runs {
        return Err(Refusal::ReportLength);
    }
    if !same_report(report, words, tests, paths) {
        return Err(Refusal::ReportBytes);
    }
    Ok(())
}
