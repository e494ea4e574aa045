// The fields and the runs of a report's bytes, and whether the runs ascend. Runs stand in bytes, 16 each, low and high.
#![tactic(auto)]

pub mod inner;

ghost use Rattle.std.specs.Prelude.{◌≡◌, ◌&&◌, leb};
ghost use Rattle.report_runs.specs.ReportRuns.{runs_of_bytes, least_at_of, Ordered, ascend};

use crate::inner::number_at;
use report_bytes::layout::RUN_BYTES;

// Whether a run at a place ascends after one that ends with `last`; at place 0 there is none before it.
fn ascends_at(at: usize, last: u64, low: u64, high: u64) -> bool
    ensures { result ≡ (leb (least_at_of at last) low && leb low high) }
{
    if high < low {
        return false;
    }
    if at == 0 {
        return true;
    }
    last < low
}

// Whether runs in bytes ascend, or which is the first that is out of order.
pub fn order_of(runs: &[u8]) -> Result<(), usize>
    ensures { Ordered result (runs_of_bytes runs.now) }
{
    let count = runs.len() / RUN_BYTES;
    let mut last: u64 = 0;
    for at in 0..count {
        let low = number_at(runs, RUN_BYTES * at);
        let high = number_at(runs, RUN_BYTES * at + 8);
        if !ascends_at(at, last, low, high) {
            return Err(at);
        }
        last = high;
    }
    Ok(())
}

// Whether runs in bytes ascend.
pub fn ascending(runs: &[u8]) -> bool
    ensures { result ≡ ascend 0 (runs_of_bytes runs.now) }
{
    let order = order_of(runs);
    match order {
        Ok(()) => true,
        Err(_) => false,
    }
}
