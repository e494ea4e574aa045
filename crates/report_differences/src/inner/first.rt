// The first false claim of a report. Where it was judged in class 2 and the true report in class 1 is at hand, a claim is false that is in neither.
ghost use Rattle.std.specs.Prelude.{◌≡◌, ◌≤◌, length};
ghost use Rattle.length_search.specs.Untested.{first_from};
ghost use Rattle.report_runs.specs.ReportRuns.{runs_of_bytes, Ascends};
ghost use Rattle.report_differences.specs.Differences.{outside};
ghost use Rattle.report_differences.specs.FirstClaim.{first_claim_of, each_held_of, all_held_of, first_in_of, claims_held_of, told_of};

use crate::inner::walk::{FaultRange, next_piece};
use report_bytes::layout::HEAD_BYTES;
use report_runs::ascending;
use report_runs::inner::{falling_runs, rising_runs};

// What is told of the first false claim.
#[derive(Drop)]
pub enum Told {
    // There is none.
    Nothing,
    // There is none in class 1; claims are false in class 2.
    NotRobust,
    // Its path, by its edge.
    Rising(u64),
    Falling(u64),
}

// The first number from 1 to T in the runs of `a` and not in those of `b`; 0 where there is none.
fn first_number(a: &[u8], b: &[u8], paths: u64) -> u64
    requires { Ascends 0 (runs_of_bytes a.now) × Ascends 0 (runs_of_bytes b.now) }
    ensures { result ≡ first_from (outside (runs_of_bytes a.now) (runs_of_bytes b.now)) 1 paths }
{
    let found = next_piece(a, 0, b, 0, 1);
    let piece = found.piece;
    match piece {
        None => 0,
        Some(FaultRange { low, .. }) => {
            if paths < low {
                return 0;
            }
            low
        }
    }
}

// The first number from 1 to T that is claimed and not held; 0 where there is none, or one of the lists does not ascend.
fn first_claim(claimed: &[u8], held: &[u8], paths: u64) -> u64
    ensures { result ≡ first_claim_of (runs_of_bytes claimed.now) (runs_of_bytes held.now) paths }
{
    if ascending(claimed) {
        if ascending(held) {
            return first_number(claimed, held, paths);
        }
    }
    0
}

// Whether every number in the runs of `a` is in those of `b`, numbers of no path included.
fn each_held(a: &[u8], b: &[u8]) -> bool
    requires { Ascends 0 (runs_of_bytes a.now) × Ascends 0 (runs_of_bytes b.now) }
    ensures { result ≡ each_held_of (runs_of_bytes a.now) (runs_of_bytes b.now) }
{
    let found = next_piece(a, 0, b, 0, 0);
    let piece = found.piece;
    match piece {
        None => true,
        Some(FaultRange { .. }) => false,
    }
}

// Whether every number that is claimed is held; not so where one of the lists does not ascend.
fn all_held(claimed: &[u8], held: &[u8]) -> bool
    ensures { result ≡ all_held_of (runs_of_bytes claimed.now) (runs_of_bytes held.now) }
{
    if ascending(claimed) {
        if ascending(held) {
            return each_held(claimed, held);
        }
    }
    false
}

// The first claim of a report that a true one does not hold.
fn first_in(report: &[u8], held: &[u8], paths: u64) -> Told
    requires { (34 ≤ length report.now) × (34 ≤ length held.now) }
    ensures { result ≡ first_in_of report.now held.now paths }
{
    let rising = first_claim(rising_runs(report), rising_runs(held), paths);
    if 0 < rising {
        return Told::Rising(rising);
    }
    let falling = first_claim(falling_runs(report), falling_runs(held), paths);
    if 0 < falling {
        return Told::Falling(falling);
    }
    Told::Nothing
}

// Whether a true report holds every number that a report claims.
fn claims_held(report: &[u8], held: &[u8]) -> bool
    requires { (34 ≤ length report.now) × (34 ≤ length held.now) }
    ensures { result ≡ claims_held_of report.now held.now }
{
    if !all_held(rising_runs(report), rising_runs(held)) {
        return false;
    }
    all_held(falling_runs(report), falling_runs(held))
}

// What is told of the first false claim of a report, against the true one and, where it is at hand, the true one in class 1. The latter alone decides
// then: it names every fault that the one in class 2 does.
pub fn first_told(report: &[u8], truth: &[u8], plain: &[u8], paths: u64) -> Told
    requires { (34 ≤ length report.now) × (34 ≤ length truth.now) }
    ensures { result ≡ told_of report.now truth.now plain.now paths }
{
    if plain.len() < HEAD_BYTES {
        return first_in(report, truth, paths);
    }
    if claims_held(report, truth) {
        return Told::Nothing;
    }
    if claims_held(report, plain) {
        return Told::NotRobust;
    }
    first_in(report, plain, paths)
}
