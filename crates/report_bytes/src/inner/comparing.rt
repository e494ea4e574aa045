// Bytes of a report compared with numbers in place.
ghost use Rattle.std.specs.Prelude.{◌≡◌, ◌+◌, ◌*◌, ◌≤◌, length, take, drop};
ghost use Rattle.model.specs.Report.{same_bytes};
ghost use Rattle.report_bytes.specs.Layout.{word_bytes, SameHead};

use crate::layout::{
    FALLING_FAULTS_AT, FALLING_RUNS_AT, PATHS_AT, REPORT_MARK, RISING_FAULTS_AT, RISING_RUNS_AT,
    TESTS_AT, WORD_BYTES,
};
use record_bytes::inner::same;

// Whether the bytes from `at` on are those of words.
pub fn same_words(report: &[u8], at: usize, words: &[u64]) -> bool
    requires { at + 8 * length words.now ≤ length report.now }
    ensures { result ≡ same_bytes (take (8 * length words.now) (drop at report.now)) (word_bytes words.now) }
{
    for (i, word) in words.iter().enumerate() {
        if !same(report, at + WORD_BYTES * i, WORD_BYTES, *word) {
            return false;
        }
    }
    true
}

// Whether the first 34 bytes are the fields before the runs.
pub fn same_head(
    report: &[u8],
    tests: u64,
    paths: u64,
    rising_runs: u64,
    falling_runs: u64,
    rising_faults: u64,
    falling_faults: u64,
) -> bool
    requires { 34 ≤ length report.now }
    ensures { SameHead result report.now tests paths rising_runs falling_runs rising_faults falling_faults }
{
    if !same(report, 0, 2, REPORT_MARK) {
        return false;
    }
    if !same(report, TESTS_AT, 4, tests) {
        return false;
    }
    if !same(report, PATHS_AT, 8, paths) {
        return false;
    }
    if !same(report, RISING_RUNS_AT, 2, rising_runs) {
        return false;
    }
    if !same(report, FALLING_RUNS_AT, 2, falling_runs) {
        return false;
    }
    if !same(report, RISING_FAULTS_AT, 8, rising_faults) {
        return false;
    }
    same(report, FALLING_FAULTS_AT, 8, falling_faults)
}
