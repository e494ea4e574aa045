// Numbers written into the bytes of a report.
ghost use Rattle.std.specs.Prelude.{◌≡◌, ◌+◌, ◌*◌, ◌≤◌, length};
ghost use Rattle.std.proofs.lemmas.List.Edits.{sets};
ghost use Rattle.report_bytes.specs.Layout.{word_bytes, head_bytes};

use crate::layout::{
    FALLING_FAULTS_AT, FALLING_RUNS_AT, PATHS_AT, REPORT_MARK, RISING_FAULTS_AT, RISING_RUNS_AT,
    TESTS_AT, WORD_BYTES,
};
use record_bytes::inner::put;

// Writes words from `at` on, 8 bytes each.
pub fn put_words(report: &mut [u8], at: usize, words: &[u64])
    requires { at + 8 * length words.now ≤ length report.old }
    ensures { report.new ≡ sets report.old at (word_bytes words.now) }
{
    for (i, word) in words.iter().enumerate() {
        put(report, at + WORD_BYTES * i, WORD_BYTES, *word);
    }
}

// Writes the fields before the runs.
pub fn put_head(
    report: &mut [u8],
    tests: u64,
    paths: u64,
    rising_runs: u64,
    falling_runs: u64,
    rising_faults: u64,
    falling_faults: u64,
)
    requires { 34 ≤ length report.old }
    ensures { report.new ≡ sets report.old 0 (head_bytes tests paths rising_runs falling_runs rising_faults falling_faults) }
{
    put(report, 0, 2, REPORT_MARK);
    put(report, TESTS_AT, 4, tests);
    put(report, PATHS_AT, 8, paths);
    put(report, RISING_RUNS_AT, 2, rising_runs);
    put(report, FALLING_RUNS_AT, 2, falling_runs);
    put(report, RISING_FAULTS_AT, 8, rising_faults);
    put(report, FALLING_FAULTS_AT, 8, falling_faults);
}
