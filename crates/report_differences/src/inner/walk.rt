// The numbers that the runs of `a` hold and those of `b` do not, range by range, for runs that ascend. A place in each list of runs goes with
// the numbers: the runs before it end before them. No run is passed twice, so the ranges of two lists take time in proportion to their runs.
ghost use Rattle.std.specs.Prelude.{◌≡◌, true};
ghost use Rattle.report_runs.specs.ReportRuns.{runs_of_bytes};
ghost use Rattle.report_differences.specs.Differences.{only, Passed, Reached, Stands, Steps, FirstFrom, LastFrom, PieceFrom};

use report_bytes::layout::RUN_BYTES;
use report_runs::inner::number_at;

// Where a number stands among runs.
#[derive(Drop)]
enum Standing {
    // In a run that goes on to this number.
    Inside(u64),
    // In none, nor is any number from it to the one before this.
    Before(u64),
    // In none, nor is any higher number.
    Past,
}

// Whether a number is in the one's runs and not in the other's.
#[derive(Drop)]
enum Step {
    // It is, and so are the numbers up to this one.
    Only(u64),
    // It is not, nor is any up to the one before this.
    Not(u64),
    // It is not, nor is any higher number.
    End,
}

// The first number of a kind, with a place in the runs of each.
#[derive(Drop)]
struct Start {
    first: Option<u64>,
    i: usize,
    j: usize,
}

// The last number of a range, with a place in the runs of each.
#[derive(Drop)]
struct Last {
    high: u64,
    i: usize,
    j: usize,
}

// A longest range of numbers.
#[derive(Drop)]
pub struct FaultRange {
    pub low: u64,
    pub high: u64,
}

// A range, with the place in the runs of each from which the next is looked for.
#[derive(Drop)]
pub struct Found {
    pub piece: Option<FaultRange>,
    pub i: usize,
    pub j: usize,
}

// The first place, from a place on, whose run does not end before a number.
fn seek(runs: &[u8], from: usize, number: u64) -> usize
    requires { Passed runs.now from number }
    ensures { Reached runs.now result number }
{
    let count = runs.len() / RUN_BYTES;
    for at in from..count {
        if number <= number_at(runs, RUN_BYTES * at + 8) {
            return at;
        }
    }
    count
}

// Where a number stands among runs of which those before a place end before it and the one at the place does not.
fn standing_at(runs: &[u8], at: usize, number: u64) -> Standing
    requires { Reached runs.now at number }
    ensures { Stands result number (runs_of_bytes runs.now) }
{
    if runs.len() / RUN_BYTES <= at {
        return Standing::Past;
    }
    let low = number_at(runs, RUN_BYTES * at);
    if number < low {
        return Standing::Before(low);
    }
    Standing::Inside(number_at(runs, RUN_BYTES * at + 8))
}

// Whether a number is in the first runs only, and how far that goes on.
fn compare_at(a: &[u8], i: usize, b: &[u8], j: usize, number: u64) -> Step
    requires { Reached a.now i number × Reached b.now j number }
    ensures { Steps result a.now b.now number }
{
    let here = standing_at(a, i, number);
    match here {
        Standing::Past => Step::End,
        Standing::Before(next) => Step::Not(next),
        Standing::Inside(end) => {
            let there = standing_at(b, j, number);
            match there {
                Standing::Past => Step::Only(end),
                Standing::Before(next) => {
                    if end < next {
                        return Step::Only(end);
                    }
                    Step::Only(next - 1)
                }
                Standing::Inside(last) => {
                    if last == u64::MAX {
                        return Step::End;
                    }
                    Step::Not(last + 1)
                }
            }
        }
    }
}

// The first number from `from` on that is in the first runs only.
fn first_only(a: &[u8], i: usize, b: &[u8], j: usize, from: u64) -> Start
    requires { Passed a.now i from × Passed b.now j from }
    ensures { FirstFrom result.first result.i result.j a.now b.now from }
{
    let mut here = i;
    let mut there = j;
    let mut number = from;
    loop {
        here = seek(a, here, number);
        there = seek(b, there, number);
        let found = compare_at(a, here, b, there, number);
        match found {
            Step::Only(_) => {
                return Start {
                    first: Some(number),
                    i: here,
                    j: there,
                };
            }
            Step::Not(next) => number = next,
            Step::End => {
                return Start {
                    first: None,
                    i: here,
                    j: there,
                };
            }
        }
    }
}

// The last number of the range that begins with a number that is in the first runs only.
fn last_only(a: &[u8], i: usize, b: &[u8], j: usize, low: u64) -> Last
    requires { Passed a.now i low × Passed b.now j low × (only a.now b.now low ≡ true) }
    ensures { LastFrom result.high result.i result.j a.now b.now low }
{
    let mut here = i;
    let mut there = j;
    let mut high = low;
    while high < u64::MAX {
        here = seek(a, here, high + 1);
        there = seek(b, there, high + 1);
        let found = compare_at(a, here, b, there, high + 1);
        match found {
            Step::Only(end) => high = end,
            Step::Not(_) => break,
            Step::End => break,
        }
    }
    Last {
        high,
        i: here,
        j: there,
    }
}

// The first longest range, from `from` on, of numbers that are in the first runs only.
pub fn next_piece(a: &[u8], i: usize, b: &[u8], j: usize, from: u64) -> Found
    requires { Passed a.now i from × Passed b.now j from }
    ensures { PieceFrom result.piece result.i result.j a.now b.now from }
{
    let start = first_only(a, i, b, j, from);
    let first = start.first;
    match first {
        None => Found {
            piece: None,
            i: start.i,
            j: start.j,
        },
        Some(low) => {
            let last = last_only(a, start.i, b, start.j, low);
            Found {
                piece: Some(FaultRange {
                    low,
                    high: last.high,
                }),
                i: last.i,
                j: last.j,
            }
        }
    }
}
