// Writing an edge's runs over those that a store holds, counting a test, and making words zero.
ghost use Rattle.std.specs.Prelude.{◌≡◌, ◌+◌, ◌-◌, ◌*◌, ◌≤◌, ◌<◌, length, set, replicate};
ghost use Rattle.model.specs.Store.{max_runs, max_tests, head_words, store_words_count, count_word_of, tests_word, tests_taken_of};
ghost use Rattle.run_lists.specs.RunLists.{runs_in_words, write_runs_of};
ghost use Rattle.path_faults.specs.Answers.{model_edge};
ghost use Rattle.store_writing.specs.Writing.{zeroed, padded_runs, ZeroWords, first_run_of, replaced, Writable, Rewritten};

use model::{HEAD_WORDS, MAX_RUNS, TESTS_WORD};
use path_faults::Edge;
use run_union::inner::copy;
use run_union::inner::moving::move_runs;
use store_words::inner::{FALLING_COUNT, RISING_COUNT};

// What becomes of an edge's runs: they are kept, or those from..to of them (the first two numbers) are replaced by so many made in other words.
#[derive(Clone, Copy)]
pub enum Change {
    Kept,
    Made(usize, usize, usize),
}

// Makes the words from..to zero, none where they end before they begin.
fn clear_part(words: &mut [u64], from: usize, to: usize)
    requires { to ≤ length words.old }
    ensures { words.new ≡ zeroed words.old from (to - from) }
{
    for i in from..to {
        words[i] = 0;
    }
}

// The word with the number of an edge's runs.
fn count_word(edge: Edge) -> usize
    ensures { (result ≡ count_word_of (model_edge edge)) × (result < head_words) }
{
    match edge {
        Edge::Rising => RISING_COUNT,
        Edge::Falling => FALLING_COUNT,
    }
}

// The run place where an edge's runs begin, in the words after the head.
fn first_run(edge: Edge) -> usize
    ensures { (result ≡ first_run_of (model_edge edge)) × (result ≤ max_runs) }
{
    match edge {
        Edge::Rising => 0,
        Edge::Falling => MAX_RUNS,
    }
}

// Replaces the runs from..to of those that an edge's places hold by others: the ones after them are moved, and zeros come after all where there were more.
fn write_places(
    words: &[u64],
    made: usize,
    count: usize,
    places: &mut [u64],
    first: usize,
    held: usize,
    from: usize,
    to: usize,
)
    requires from_le_to { (from ≤ to) × (to ≤ held) × (held ≤ max_runs) × (from + count + (held - to) ≤ max_runs) }
    requires count_in_bounds { (2 * (made + count) ≤ length words.now) × (2 * (first + max_runs) ≤ length places.old) }
    requires zero_words { ZeroWords places.old (2 * (first + held)) (2 * (first + max_runs)) }
    ensures { places.new ≡ write_runs_of places.old first (padded_runs
        (replaced from to (runs_in_words words.now made count) (runs_in_words places.old first held))) }
{
    let after = from + count;
    let rest = held - to;
    move_runs(places, first + to, rest, first + after);
    copy(words, made, count, places, first + from);
    clear_part(places, 2 * (first + (after + rest)), 2 * (first + held));
}

// Writes an edge's runs to a store: some of them replaced by those made in other words from run place `made` on, or nothing where they are kept.
pub fn write_runs(words: &[u64], made: usize, change: Change, store: &mut [u64], edge: Edge)
    requires { Writable words.now made change (model_edge edge) store.old }
    ensures { Rewritten words.now made change (model_edge edge) store.old store.new }
{
    match change {
        Change::Kept => {}
        Change::Made(from, to, count) => {
            let place = count_word(edge);
            let first = first_run(edge);
            let held = store[place] as usize;
            store[place] = (from + count + (held - to)) as u64;
            write_places(
                words,
                made,
                count,
                &mut store[HEAD_WORDS..],
                first,
                held,
                from,
                to,
            );
        }
    }
}

// Counts one more test.
pub fn count_test(store: &mut [u64])
    requires { (length store.old ≡ store_words_count) × (tests_taken_of store.old < max_tests) }
    ensures { store.new ≡ set store.old tests_word (tests_taken_of store.old + 1) }
{
    store[TESTS_WORD] = store[TESTS_WORD] + 1;
}

// Makes every word zero.
pub fn clear(words: &mut [u64])
    ensures { words.new ≡ replicate (length words.old) 0 }
{
    let end = words.len();
    clear_part(words, 0, end);
}
