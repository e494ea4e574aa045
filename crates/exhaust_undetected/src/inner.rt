// The faults of so many paths that sound words do not hold. Each caller proves what a function requires.
ghost use Rattle.std.specs.Prelude.{◌≡◌, ◌+◌, ◌-◌, ◌*◌, ◌/◌, ◌^◌, ◌≤◌, length, get_or};
ghost use Rattle.model.specs.Store.{store_runs};
ghost use Rattle.path_faults.specs.Answers.{model_edge};
ghost use Rattle.run_lists.specs.RunLists.{Sound, runs_in_words};
ghost use Rattle.store_words.specs.Sound.{SoundWords};
ghost use Rattle.exhaust_undetected.specs.Undetected.{most_listed, undetected, ListWritten};
ghost use Rattle.exhaust_undetected.specs.Searches.{FirstFree, FirstFault, rest_from};

use model::{HEAD_WORDS, MAX_RUNS, Refusal};
use path_faults::{Edge, FaultNo, PathNo, edge_of, fault_of, path_of};
use store_words::inner::{FALLING_COUNT, RISING_COUNT, totals_of};

// The most faults that are listed.
pub const LISTED: usize = 20;

// The first number from x on that is in none of the runs from..to.
fn next_free(words: &[u64], from: usize, to: usize, x: u64) -> u64
    requires from_le_to { (from ≤ to) × (2 * to ≤ length words.now) }
    requires sound { Sound (2 ^ 62) (runs_in_words words.now from (to - from)) }
    ensures { FirstFree result (runs_in_words words.now from (to - from)) x }
{
    for i in from..to {
        if x <= words[2 * i + 1] {
            if words[2 * i] <= x {
                return words[2 * i + 1] + 1;
            }
            return x;
        }
    }
    x
}

// The first path from a number on whose fault of an edge is not held.
fn next_path(words: &[u64], edge: Edge, from: u64) -> u64
    requires { SoundWords (2 ^ 62) words.now }
    ensures { FirstFree result (store_runs words.now (model_edge edge)) from }
{
    let places = &words[HEAD_WORDS..];
    match edge {
        Edge::Rising => next_free(places, 0, words[RISING_COUNT] as usize, from),
        Edge::Falling => {
            next_free(
                places,
                MAX_RUNS,
                MAX_RUNS + words[FALLING_COUNT] as usize,
                from,
            )
        }
    }
}

// The first path whose rising fault is not before a fault.
fn rising_from(from: FaultNo) -> u64
    ensures { result ≡ from.0 / 2 + 1 }
{
    let path = path_of(from);
    match edge_of(from) {
        Edge::Rising => path.0,
        Edge::Falling => path.0 + 1,
    }
}

// The first fault from one on that is not held: the lower one of the first of each edge.
fn next_fault(words: &[u64], from: FaultNo) -> Result<FaultNo, Refusal>
    requires { SoundWords (2 ^ 62) words.now × (1 ≤ from.0) }
    ensures { FirstFault result words.now from.0 }
{
    let rising = next_path(words, Edge::Rising, rising_from(from));
    let path = path_of(from);
    let falling = next_path(words, Edge::Falling, path.0);
    if rising <= falling {
        return fault_of(PathNo(rising), Edge::Rising);
    }
    fault_of(PathNo(falling), Edge::Falling)
}

// The number of that fault, if it is one of so many paths, else 0.
fn next_number(words: &[u64], paths: u64, from: FaultNo) -> u64
    requires { SoundWords (2 ^ 62) words.now × (1 ≤ from.0) × (paths ≤ 2 ^ 62) }
    ensures { result ≡ get_or (rest_from words.now paths from.0) 0 0 }
{
    let found = next_fault(words, from);
    match found {
        Err(_) => 0,
        Ok(fault) => {
            let path = path_of(fault);
            if paths < path.0 {
                return 0;
            }
            fault.0
        }
    }
}

// Writes the numbers of the first faults that are not held, at most 20, at the start of the words lent for them; how many they are.
pub fn first_undetected(words: &[u64], paths: u64, list: &mut [u64]) -> usize
    requires { SoundWords (2 ^ 62) words.now × (paths ≤ 2 ^ 62) × (most_listed ≤ length list.old) }
    ensures { ListWritten result list.old list.new words.now paths }
{
    let mut from: u64 = 1;
    for count in 0..LISTED {
        let number = next_number(words, paths, FaultNo(from));
        if number == 0 {
            return count;
        }
        list[count] = number;
        from = number + 1;
    }
    LISTED
}

// How many faults are not held.
pub fn count_undetected(words: &[u64], paths: u64) -> u64
    requires { SoundWords paths words.now × (paths ≤ 2 ^ 62) }
    ensures { result ≡ length (undetected words.now paths) }
{
    let held = totals_of(words);
    (paths - held.rising) + (paths - held.falling)
}
