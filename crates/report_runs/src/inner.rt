// The fields and the runs of a report's bytes, for our own crates.
ghost use Rattle.std.specs.Prelude.{◌≡◌, ◌+◌, ◌*◌, ◌-◌, ◌/◌, ◌≤◌, ◌<◌, min, length, take, drop};
ghost use Rattle.model.specs.Base.{field};
ghost use Rattle.model.specs.Path.{rising, falling};
ghost use Rattle.report_runs.specs.ReportRuns.{head_of, runs_of_bytes, stated_runs};

use record_bytes::inner::u16_at;
use report_bytes::layout::{
    FALLING_FAULTS_AT, FALLING_RUNS_AT, HEAD_BYTES, PATHS_AT, RISING_FAULTS_AT, RISING_RUNS_AT,
    RUN_BYTES, TESTS_AT,
};

// The fields before the runs.
#[derive(Drop)]
pub struct Head {
    pub tests: u64,
    pub paths: u64,
    pub rising_runs: u64,
    pub falling_runs: u64,
    pub rising_faults: u64,
    pub falling_faults: u64,
}

// The number of eight bytes at a place.
pub fn number_at(bytes: &[u8], at: usize) -> u64
    requires { at + 7 < length bytes.now }
    ensures { result ≡ field at 8 bytes.now }
{
    let first = u16_at(bytes, at);
    let second = u16_at(bytes, at + 2);
    let third = u16_at(bytes, at + 4);
    let fourth = u16_at(bytes, at + 6);
    (first + 0x1_0000 * second + 0x1_0000_0000 * third + 0x1_0000_0000_0000 * fourth) as u64
}

// The fields before the runs.
pub fn head_of(report: &[u8]) -> Head
    requires { 34 ≤ length report.now }
    ensures { result ≡ head_of report.now }
{
    let tests = u16_at(report, TESTS_AT) + 65536 * u16_at(report, TESTS_AT + 2);
    Head {
        tests: tests as u64,
        paths: number_at(report, PATHS_AT),
        rising_runs: u16_at(report, RISING_RUNS_AT) as u64,
        falling_runs: u16_at(report, FALLING_RUNS_AT) as u64,
        rising_faults: number_at(report, RISING_FAULTS_AT),
        falling_faults: number_at(report, FALLING_FAULTS_AT),
    }
}

// The lower of two numbers.
fn least(a: usize, b: usize) -> usize
    ensures { result ≡ min a b }
{
    if a < b { a } else { b }
}

// The bytes of the runs from a place on: as many as are stated, of those that lie whole within the report.
fn runs_from(report: &[u8], at: usize, stated: usize) -> &[u8]
    requires { at ≤ length report.now }
    ensures { result.now ≡ take (16 * min stated ((length report.now - at) / 16))
        (drop at report.now) }
{
    let present = least(stated, (report.len() - at) / RUN_BYTES);
    let end = at + RUN_BYTES * present;
    &report[at..end]
}

// The bytes of the rising runs, of a report of any length.
pub fn rising_runs(report: &[u8]) -> &[u8]
    requires { 34 ≤ length report.now }
    ensures { runs_of_bytes result.now ≡ stated_runs report.now rising }
{
    runs_from(report, HEAD_BYTES, u16_at(report, RISING_RUNS_AT))
}

// The bytes of the falling runs, which follow the rising ones that are stated.
pub fn falling_runs(report: &[u8]) -> &[u8]
    requires { 34 ≤ length report.now }
    ensures { runs_of_bytes result.now ≡ stated_runs report.now falling }
{
    let at = HEAD_BYTES + RUN_BYTES * u16_at(report, RISING_RUNS_AT);
    if report.len() < at {
        return runs_from(report, HEAD_BYTES, 0);
    }
    runs_from(report, at, u16_at(report, FALLING_RUNS_AT))
}
