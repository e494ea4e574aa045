// Runs found in sound words, for our own crates. Each caller proves what a function requires.
ghost use Rattle.std.specs.Prelude.{◌≡◌, not, ◌+◌, ◌≤◌, ◌^◌, leb, length};
ghost use Rattle.model.specs.Store.{max_runs};
ghost use Rattle.tree_words.specs.TreeLayout.{tree_runs};
ghost use Rattle.tree_words.specs.Calls.{none, first_run_of, overlaps, adjacent, runs_with, stored, run_of};
ghost use Rattle.tree_words.specs.Nodes.{SoundTree};
ghost use Rattle.tree_lookup.specs.Lookup.{FoundAt, join_low, join_high};
ghost use Rattle.tree_descent.specs.Descent.{reaches, begins, last_run};

use model::MAX_RUNS;
use tree_check::inner::{count_at, space_start};
use tree_descent::inner::{first_reaching, last_starting};
use tree_words::inner::{high_at, low_at, word};

// The leaf of the first run that ends at `x` or above, 0 if there is none.
fn reaching(words: &[u64], x: u64) -> usize
    requires { SoundTree words.now }
    ensures { FoundAt words.now (first_run_of (reaches x) (tree_runs words.now)) result }
{
    let levels = word(words, 0);
    if levels == 0 {
        return 0;
    }
    let root = word(words, 1);
    if high_at(words, root) < x {
        return 0;
    }
    let free = word(words, 2);
    let start = space_start(root);
    first_reaching(words, start, free, levels - 1, root, x)
}

// The leaf of the last run that begins at `x` or below, 0 if there is none.
fn starting(words: &[u64], x: u64) -> usize
    requires { SoundTree words.now }
    ensures { FoundAt words.now (last_run (begins x) (tree_runs words.now)) result }
{
    let levels = word(words, 0);
    if levels == 0 {
        return 0;
    }
    let root = word(words, 1);
    if x < low_at(words, root) {
        return 0;
    }
    let free = word(words, 2);
    let start = space_start(root);
    last_starting(words, start, free, levels - 1, root, x)
}

// The leaf of the least run that overlaps low..high, 0 if there is none.
pub fn overlapping(words: &[u64], low: u64, high: u64) -> usize
    requires { SoundTree words.now × (low ≤ high) }
    ensures { FoundAt words.now (first_run_of (overlaps (run_of low high)) (tree_runs words.now)) result }
{
    let at = reaching(words, low);
    if at == 0 {
        return 0;
    }
    if high < low_at(words, at) {
        return 0;
    }
    at
}

// The leaf of the least run that is adjacent to low..high, which no run overlaps, 0 if there is none.
pub fn neighbour(words: &[u64], low: u64, high: u64) -> usize
    requires sound_tree { SoundTree words.now × (1 ≤ low) × (low ≤ high) × (high ≤ 2 ^ 62) }
    requires words_value { first_run_of (overlaps (run_of low high)) (tree_runs words.now) ≡ none }
    ensures { FoundAt words.now (first_run_of (adjacent (run_of low high)) (tree_runs words.now)) result }
{
    let near = reaching(words, low - 1);
    if near == 0 {
        return 0;
    }
    if high_at(words, near) < low {
        return near;
    }
    if high + 1 < low_at(words, near) {
        return 0;
    }
    near
}

// Whether low..high is a stored run.
pub fn is_stored(words: &[u64], low: u64, high: u64) -> bool
    requires { SoundTree words.now }
    ensures { result ≡ stored (tree_runs words.now) (run_of low high) }
{
    let at = reaching(words, high);
    if at == 0 {
        return false;
    }
    if low_at(words, at) != low {
        return false;
    }
    high_at(words, at) == high
}

// The low end of the run that low..high makes with those that it touches.
pub fn joined_low(words: &[u64], low: u64) -> u64
    requires { SoundTree words.now × (1 ≤ low) }
    ensures { result ≡ join_low low (tree_runs words.now) }
{
    let at = reaching(words, low - 1);
    if at == 0 {
        return low;
    }
    let least = low_at(words, at);
    if least < low {
        return least;
    }
    low
}

// The high end.
pub fn joined_high(words: &[u64], high: u64) -> u64
    requires { SoundTree words.now × (high ≤ 2 ^ 62) }
    ensures { result ≡ join_high high (tree_runs words.now) }
{
    let at = starting(words, high + 1);
    if at == 0 {
        return high;
    }
    let most = high_at(words, at);
    if high < most {
        return most;
    }
    high
}

// How many runs sound words hold.
fn held_runs(words: &[u64]) -> usize
    requires { SoundTree words.now }
    ensures { result ≡ length (tree_runs words.now) }
{
    let levels = word(words, 0);
    if levels == 0 {
        return 0;
    }
    let root = word(words, 1);
    let free = word(words, 2);
    let start = space_start(root);
    count_at(words, start, free, levels - 1, root)
}

// Whether the tree would have over 1,024 runs with low..high: it has 1,024 now, and none overlaps it or is adjacent.
pub fn is_full(words: &[u64], low: u64, high: u64) -> bool
    requires { SoundTree words.now × (1 ≤ low) × (low ≤ high) × (high ≤ 2 ^ 62) }
    ensures { result ≡ not (leb (length (runs_with (tree_runs words.now) (run_of low high))) max_runs) }
{
    let at = reaching(words, low - 1);
    if at != 0 {
        if low_at(words, at) <= high + 1 {
            return false;
        }
        return MAX_RUNS <= held_runs(words);
    }
    MAX_RUNS <= held_runs(words)
}
