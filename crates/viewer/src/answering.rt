// The answers to a viewer, in words lent for his ranges and the runs that he sees.
ghost use Rattle.std.specs.Prelude.{◌≡◌, ◌+◌, ◌*◌, ◌≤◌, ◌^◌, length};
ghost use Rattle.model.specs.Runs.{in_runs};
ghost use Rattle.model.specs.Store.{max_runs, store_words_count};
ghost use Rattle.run_lists.specs.RunLists.{Sound, runs_in_words};
ghost use Rattle.store.specs.Answers.{totals_among};
ghost use Rattle.store_words.specs.Sound.{SoundWords};
ghost use Rattle.viewer_places.specs.Viewer.{viewer_totals_call, viewer_fault_call};
ghost use Rattle.viewer_ranges.specs.Ranges.{most_places};
ghost use Rattle.viewer.specs.ViewAnswers.{ViewTrue, asked_on};
ghost use Rattle.model.specs.Returned.{answer_of};

use crate::looking::look;
use model::{MAX_RUNS, Refusal};
use path_faults::{Edge, FaultNo, PathNo, edge_of, path_of};
use run_lists::inner::contains;
use store::StoreTotals;
use store_words::inner::held;
use store_words::inner::parts::tests_taken;
use viewer_runs::inner::{seen_runs, seen_size, write_view};

// The totals, once the store's length is passed.
pub(crate) fn totals_with(
    netlist: &[u8],
    store: &[u64],
    places: &[u16],
    ranges: &mut [u64],
    words: &mut [u64],
) -> Result<StoreTotals, Refusal>
    requires { (length store.now ≡ store_words_count) × (2 * most_places ≤ length ranges.old) × (2 * (most_places + max_runs) ≤ length words.old) }
    ensures { totals_among result ≡ viewer_totals_call netlist.now store.now places.now }
{
    let (count, _) = look(netlist, store, places, ranges)?;
    let rising = seen_size(ranges, count, store, Edge::Rising, words);
    let falling = seen_size(ranges, count, store, Edge::Falling, words);
    Ok(StoreTotals { rising, falling })
}

// Whether sound words hold a fault whose path number lies in the ranges, for path numbers 1 to `paths`.
fn ask(
    ranges: &[u64],
    count: usize,
    store: &[u64],
    paths: u64,
    number: u64,
) -> Result<bool, Refusal>
    requires sound_words { SoundWords (2 ^ 62) store.now × (2 * count ≤ length ranges.now) × (paths ≤ 2 ^ 62) }
    requires sound { Sound (2 ^ 62) (runs_in_words ranges.now 0 count) }
    ensures { answer_of result ≡ asked_on (in_runs (runs_in_words ranges.now 0 count)) store.now paths number }
{
    if number < 1 {
        return Err(Refusal::NoSuchNumber);
    }
    if 2 * paths < number {
        return Err(Refusal::NoSuchNumber);
    }
    let path = path_of(FaultNo(number));
    let place = path.0;
    let own = contains(ranges, 0, count, place);
    if !own {
        return Err(Refusal::ForeignFault);
    }
    let edge = edge_of(FaultNo(number));
    if held(store, edge, PathNo(place)) {
        Ok(true)
    } else {
        Ok(false)
    }
}

// The single question, once the store's length is passed.
pub(crate) fn holds_with(
    netlist: &[u8],
    store: &[u64],
    places: &[u16],
    number: u64,
    ranges: &mut [u64],
) -> Result<bool, Refusal>
    requires { (length store.now ≡ store_words_count) × (2 * most_places ≤ length ranges.old) }
    ensures { answer_of result ≡ viewer_fault_call netlist.now store.now places.now number }
{
    let (count, total) = look(netlist, store, places, ranges)?;
    ask(ranges, count, store, total, number)
}

// The runs, once the lengths of both stores are passed. Both edges are made before a word is written.
pub(crate) fn runs_with(
    netlist: &[u8],
    store: &[u64],
    places: &[u16],
    ranges: &mut [u64],
    up: &mut [u64],
    down: &mut [u64],
    view: &mut [u64],
) -> Result<(), Refusal>
    requires store_len { (length store.now ≡ store_words_count) × (length view.old ≡ store_words_count) × (2 * most_places ≤ length ranges.old) }
    requires max_runs_in_bounds { (2 * (most_places + max_runs) ≤ length up.old) × (2 * (most_places + max_runs) ≤ length down.old) }
    ensures { ViewTrue result netlist.now store.now places.now view.old view.new }
{
    let (count, _) = look(netlist, store, places, ranges)?;
    let rising = seen_runs(ranges, count, store, Edge::Rising, up);
    let falling = seen_runs(ranges, count, store, Edge::Falling, down);
    if MAX_RUNS < rising {
        return Err(Refusal::StoreRuns);
    }
    if MAX_RUNS < falling {
        return Err(Refusal::StoreRuns);
    }
    let tests = tests_taken(store);
    write_view(tests, up, rising, down, falling, view);
    Ok(())
}
