// The numbers that are claimed and not detected, and those that are detected and not claimed, for an edge whose runs ascend. Where the report was
// judged in class 2 and the true report in class 1 is at hand, claims that are true in class 1 are told apart.
ghost use Rattle.std.specs.Prelude.{◌≤◌, length};
ghost use Rattle.report_runs.specs.ReportRuns.{runs_of_bytes, Ascends};
ghost use Rattle.audit_report.specs.ClaimedNumbers.{ClaimTrue};

use crate::one_more;
use path_faults::Edge;
use program_sentences::{STDOUT_FILENO, print_line};
use report_bytes::layout::HEAD_BYTES;
use report_claim_text::{claim_line, more_line, shown_lines};
use report_claim_words::Kind;
use report_differences::inner::walk::{FaultRange, next_piece};
use report_runs::ascending;
use report_runs::inner::{falling_runs, rising_runs};

// A line for one range of numbers, where it is shown.
fn print_piece(kind: Kind, edge: Edge, low: u64, high: u64, is_shown: bool) {
    if is_shown {
        print_line(STDOUT_FILENO, claim_line(kind, edge, low, high));
    }
}

// The lines for the ranges of numbers in the runs of `a` and not in those of `b`, of which those are printed whose place is below `shown`; the
// number of lines with those before.
fn print_pieces(kind: Kind, edge: Edge, a: &[u8], b: &[u8], before: u64, shown: u64) -> u64
    requires { Ascends 0 (runs_of_bytes a.now) × Ascends 0 (runs_of_bytes b.now) }
{
    let mut lines = before;
    let mut i = 0;
    let mut j = 0;
    let mut from: u64 = 0;
    loop {
        let found = next_piece(a, i, b, j, from);
        let piece = found.piece;
        match piece {
            None => return lines,
            Some(FaultRange { low, high }) => {
                print_piece(kind, edge, low, high, lines < shown);
                lines = one_more(lines);
                if high == u64::MAX {
                    return lines;
                }
                i = found.i;
                j = found.j;
                from = high + 1;
            }
        }
    }
}

// What is wrong with claimed numbers that are not in the true report, up to a number.
#[derive(Drop)]
struct Claim {
    kind: Kind,
    high: u64,
}

// Of the numbers from `low` to `high`, which are in the runs of the report: those from `low` on that are all in the runs of the true report in class
// 1, or all not.
fn claim_in(a: &[u8], plain: &[u8], low: u64, high: u64) -> Claim
    requires { Ascends 0 (runs_of_bytes a.now) × Ascends 0 (runs_of_bytes plain.now) × (low ≤ high) }
    ensures { ClaimTrue result a.now plain.now low high }
{
    let found = next_piece(a, 0, plain, 0, low);
    let piece = found.piece;
    match piece {
        None => Claim {
            kind: Kind::NotRobust,
            high,
        },
        Some(
            FaultRange {
                low: first,
                high: last,
            },
        ) => {
            if high < first {
                return Claim {
                    kind: Kind::NotRobust,
                    high,
                };
            }
            if low < first {
                return Claim {
                    kind: Kind::NotRobust,
                    high: first - 1,
                };
            }
            if high < last {
                return Claim {
                    kind: Kind::FalseClaim,
                    high,
                };
            }
            Claim {
                kind: Kind::FalseClaim,
                high: last,
            }
        }
    }
}

// The lines for the numbers in the runs of the report `a` and not in those of the true report `b`, cut where they begin or end to be in those of the
// true report in class 1.
fn print_split(edge: Edge, a: &[u8], b: &[u8], plain: &[u8], before: u64, shown: u64) -> u64
    requires { Ascends 0 (runs_of_bytes a.now) × Ascends 0 (runs_of_bytes b.now) × Ascends 0 (runs_of_bytes plain.now) }
{
    let mut lines = before;
    let mut i = 0;
    let mut j = 0;
    let mut from: u64 = 0;
    loop {
        let found = next_piece(a, i, b, j, from);
        let piece = found.piece;
        match piece {
            None => return lines,
            Some(FaultRange { low, high }) => {
                let claim = claim_in(a, plain, low, high);
                let wrong = claim.kind;
                let last = claim.high;
                print_piece(wrong, edge, low, last, lines < shown);
                lines = one_more(lines);
                if last < high {
                    from = last + 1;
                    continue;
                }
                if high == u64::MAX {
                    return lines;
                }
                i = found.i;
                j = found.j;
                from = high + 1;
            }
        }
    }
}

// The same for two lists of runs of which one may not ascend: there is then nothing to compare.
fn print_edge(kind: Kind, edge: Edge, a: &[u8], b: &[u8], before: u64, shown: u64) -> u64 {
    if ascending(a) {
        if ascending(b) {
            return print_pieces(kind, edge, a, b, before, shown);
        }
    }
    before
}

// The false claims of an edge; cut so where the true report in class 1 is at hand.
fn print_claims_of(
    edge: Edge,
    claimed: &[u8],
    truth: &[u8],
    plain: &[u8],
    split: bool,
    before: u64,
    shown: u64,
) -> u64 {
    if !split {
        return print_edge(Kind::FalseClaim, edge, claimed, truth, before, shown);
    }
    if ascending(claimed) {
        if ascending(truth) {
            if ascending(plain) {
                return print_split(edge, claimed, truth, plain, before, shown);
            }
        }
    }
    before
}

// The runs of an edge in a report, none where it is too short to have any.
fn rising_in(report: &[u8]) -> &[u8] {
    if report.len() < HEAD_BYTES {
        return report;
    }
    rising_runs(report)
}

fn falling_in(report: &[u8]) -> &[u8] {
    if report.len() < HEAD_BYTES {
        return report;
    }
    falling_runs(report)
}

// The false claims of both edges, of which so many are printed; their number.
fn print_false(report: &[u8], truth: &[u8], plain: &[u8], shown: u64) -> u64
    requires { (34 ≤ length report.now) × (34 ≤ length truth.now) }
{
    let split = HEAD_BYTES <= plain.len();
    let rising = print_claims_of(
        Edge::Rising,
        rising_runs(report),
        rising_runs(truth),
        rising_in(plain),
        split,
        0,
        shown,
    );
    print_claims_of(
        Edge::Falling,
        falling_runs(report),
        falling_runs(truth),
        falling_in(plain),
        split,
        rising,
        shown,
    )
}

// What both edges miss, of which so much is printed; the number of lines.
fn print_missed(report: &[u8], truth: &[u8], shown: u64) -> u64
    requires { (34 ≤ length report.now) × (34 ≤ length truth.now) }
{
    let rising = print_edge(
        Kind::Missed,
        Edge::Rising,
        rising_runs(truth),
        rising_runs(report),
        0,
        shown,
    );
    print_edge(
        Kind::Missed,
        Edge::Falling,
        falling_runs(truth),
        falling_runs(report),
        rising,
        shown,
    )
}

// How many lines of a kind are not printed.
fn print_more(kind: Kind, lines: u64, shown: u64) {
    if shown < lines {
        print_line(STDOUT_FILENO, more_line(kind, lines - shown));
    }
}

// The numbers claimed and not detected, then those detected and not claimed. Both are counted first, so that neither crowds out the other.
pub(crate) fn print_numbers(report: &[u8], truth: &[u8], plain: &[u8], all: bool)
    requires { (34 ≤ length report.now) × (34 ≤ length truth.now) }
{
    let claims = print_false(report, truth, plain, 0);
    let missed = print_missed(report, truth, 0);
    let shown_claims = shown_lines(claims, missed, all);
    let shown_missed = shown_lines(missed, claims, all);
    print_false(report, truth, plain, shown_claims);
    print_more(Kind::FalseClaim, claims, shown_claims);
    print_missed(report, truth, shown_missed);
    print_more(Kind::Missed, missed, shown_missed);
}
