// A store's runs cut to the ranges that a viewer sees, counted, and written to a second store.
ghost use Rattle.std.specs.Prelude.{◌≡◌, ◌+◌, ◌*◌, ◌≤◌, ◌^◌, length};
ghost use Rattle.model.specs.Runs;
ghost use Rattle.model.specs.Store.{max_runs, store_words_count, store_runs, store_of};
ghost use Rattle.path_faults.specs.Answers.{model_edge};
ghost use Rattle.run_lists.specs.RunLists.{Sound, runs_in_words};
ghost use Rattle.store_words.specs.Sound.{FewRuns, SoundWords};
ghost use Rattle.run_intersection.specs.Meets.{meets};
ghost use Rattle.viewer_runs.specs.ViewRuns.{both_runs};

use model::TESTS_WORD;
use path_faults::Edge;
use run_intersection::inner::common;
use run_lists::inner::size;
use store_words::inner::parts::edge_runs;
use store_writing::inner::{Change, clear, write_runs};

// Puts the parts of an edge's runs that lie in some ranges into words, two for each run, and returns their number.
pub fn seen_runs(
    ranges: &[u64],
    count: usize,
    store: &[u64],
    edge: Edge,
    words: &mut [u64],
) -> usize
    requires { FewRuns store.now × (2 * count ≤ length ranges.now) × (2 * (count + max_runs) ≤ length words.old) }
    ensures { (runs_in_words words.new 0 result
        ≡ meets (runs_in_words ranges.now 0 count) (store_runs store.now (model_edge edge))) × (result ≤ count + max_runs) }
{
    let runs = edge_runs(store, edge);
    common(ranges, count, runs, runs.len() / 2, words)
}

// How many numbers of an edge's runs lie in some ranges.
pub fn seen_size(ranges: &[u64], count: usize, store: &[u64], edge: Edge, words: &mut [u64]) -> u64
    requires sound_words { SoundWords (2 ^ 62) store.now × Sound (2 ^ 62) (runs_in_words ranges.now 0 count) }
    requires count_in_bounds { (2 * count ≤ length ranges.now) × (2 * (count + max_runs) ≤ length words.old) }
    ensures { result ≡ Runs.size (meets (runs_in_words ranges.now 0 count) (store_runs store.now (model_edge edge))) }
{
    let made = seen_runs(ranges, count, store, edge, words);
    size(words, 0, made)
}

// Writes a store of any words anew: a number of tests taken, and the first runs of some words for each edge.
pub fn write_view(
    tests: u64,
    up: &[u64],
    rising: usize,
    down: &[u64],
    falling: usize,
    view: &mut [u64],
)
    requires rising_le_max_runs { (rising ≤ max_runs) × (2 * max_runs ≤ length up.now) × (falling ≤ max_runs) × (2 * max_runs ≤ length down.now) }
    requires view_len { length view.old ≡ store_words_count }
    ensures { view.new ≡ store_of tests (both_runs (runs_in_words up.now 0 rising) (runs_in_words down.now 0 falling)) }
{
    clear(view);
    view[TESTS_WORD] = tests;
    write_runs(up, 0, Change::Made(0, 0, rising), view, Edge::Rising);
    write_runs(down, 0, Change::Made(0, 0, falling), view, Edge::Falling);
}
