// What a viewer, a list of output places, is answered of a store: totals, runs and single questions for the paths that end at his outputs.
#![tactic(auto)]

mod answering;
mod looking;

ghost use Rattle.std.specs.Prelude.{◌≡◌};
ghost use Rattle.store.specs.Answers.{totals_among};
ghost use Rattle.viewer_places.specs.Viewer.{viewer_totals_call, viewer_fault_call};
ghost use Rattle.viewer.specs.ViewAnswers.{ViewTrue};
ghost use Rattle.model.specs.Returned.{answer_of};

use crate::answering::{holds_with, runs_with, totals_with};
use model::{MAX_RUNS, Refusal, STORE_WORDS};
use path_faults::FaultNo;
use store_words::inner::StoreTotals;
use viewer_ranges::inner::MOST_PLACES;

// The words of a viewer's ranges, and of the runs that he sees of an edge, two for each.
const RANGE_WORDS: usize = 2 * MOST_PLACES;

const SEEN_WORDS: usize = 2 * (MOST_PLACES + MAX_RUNS);

// The number of faults of each edge that a store holds, of paths that end at a viewer's outputs.
pub fn viewer_totals(netlist: &[u8], store: &[u64], places: &[u16]) -> Result<StoreTotals, Refusal>
    ensures { totals_among result ≡ viewer_totals_call netlist.now store.now places.now }
{
    if store.len() != STORE_WORDS {
        return Err(Refusal::StoreLength);
    }
    let mut ranges = [0u64; RANGE_WORDS];
    let mut words = [0u64; SEEN_WORDS];
    totals_with(netlist, store, places, &mut ranges, &mut words)
}

// Whether a store holds a fault of a path that ends at one of a viewer's outputs.
pub fn viewer_holds(
    netlist: &[u8],
    store: &[u64],
    places: &[u16],
    fault: FaultNo,
) -> Result<bool, Refusal>
    ensures { answer_of result ≡ viewer_fault_call netlist.now store.now places.now fault.0 }
{
    let number = fault.0;
    if store.len() != STORE_WORDS {
        return Err(Refusal::StoreLength);
    }
    let mut ranges = [0u64; RANGE_WORDS];
    holds_with(netlist, store, places, number, &mut ranges)
}

// Writes the runs that a viewer sees of a store into a second one, of any words. A refused call leaves its words as they were.
pub fn viewer_runs(
    netlist: &[u8],
    store: &[u64],
    places: &[u16],
    view: &mut [u64],
) -> Result<(), Refusal>
    ensures { ViewTrue result netlist.now store.now places.now view.old view.new }
{
    if store.len() != STORE_WORDS {
        return Err(Refusal::StoreLength);
    }
    if view.len() != STORE_WORDS {
        return Err(Refusal::StoreLength);
    }
    let mut ranges = [0u64; RANGE_WORDS];
    let mut up = [0u64; SEEN_WORDS];
    let mut down = [0u64; SEEN_WORDS];
    runs_with(
        netlist,
        store,
        places,
        &mut ranges,
        &mut up,
        &mut down,
        view,
    )
}
