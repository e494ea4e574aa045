// A store of 4,099 words, for our own crates: its checks, and the sums and searches of words that pass them.
// Its run places are the words after the head: rising runs from run place 0 on, falling runs from MAX_RUNS on.
pub mod parts;

ghost use Rattle.std.specs.Prelude.{◌≡◌, ◌+◌, ◌^◌, ◌≤◌, eqb, leb, length, take, drop};
ghost use Rattle.model.specs.Base.{all_of, checks};
ghost use Rattle.model.specs.Runs.{in_runs, separated_runs_of};
ghost use Rattle.model.specs.Store.{max_runs, max_tests, store_words_count, both_edges, run_count, tests_taken_of, runs_of_tests_of, store_runs, words_after, store_rules};
ghost use Rattle.path_faults.specs.Answers.{model_edge};
ghost use Rattle.store_words.specs.WordAnswers.{totals_in, totals_both, zero_words_of, row_words};
ghost use Rattle.store_words.specs.Sound.{FewRuns, SoundWords};
ghost use Rattle.model.specs.Returned.{answer_of};

use model::{HEAD_WORDS, MAX_RUNS, MAX_TESTS, PLACE_WORDS, Refusal, TESTS_WORD};
use path_faults::{Edge, PathNo};
use run_lists::inner::{contains, separated, size};

// The words with the number of an edge's runs.
pub const RISING_COUNT: usize = 0;

pub const FALLING_COUNT: usize = 1;

// The word where the falling runs begin; the rising ones begin after the head.
pub const FALLING_WORD: usize = HEAD_WORDS + PLACE_WORDS;

// So many words past the runs are read in a row.
const ROW_WORDS: usize = 32;

// The number of faults held of each edge.
#[derive(Clone, Copy)]
pub struct StoreTotals {
    pub rising: u64,
    pub falling: u64,
}

// The bits of ROW_WORDS words together, from word `at` on: 0 where all are zero.
fn row_bits(words: &[u64], at: usize) -> u64
    requires { at + row_words ≤ length words.now }
    ensures { eqb result 0 ≡ zero_words_of words.now at row_words }
{
    let mut seen: u64 = 0;
    for i in 0..ROW_WORDS {
        seen = seen | words[at + i];
    }
    seen
}

// Whether the n words from word `at` on are zero.
fn few_zero(words: &[u64], at: usize, n: usize) -> bool
    requires { at + n ≤ length words.now }
    ensures { result ≡ zero_words_of words.now at n }
{
    let mut seen: u64 = 0;
    for place in at..at + n {
        seen = seen | words[place];
    }
    seen == 0
}

// The same of many words: they are read a row at a time, with no early end and no jump within a row, so that the compiler reads several at once. The
// first is read alone: a store's runs begin at an odd word, and reads of two words from an even one on do not cross the ends of cache lines.
fn zero_words(words: &[u64], at: usize, n: usize) -> bool
    requires { at + n ≤ length words.now }
    ensures { result ≡ zero_words_of words.now at n }
{
    if n == 0 {
        return true;
    }
    let mut seen = words[at];
    let rows = (n - 1) / ROW_WORDS;
    for row in 0..rows {
        seen = seen | row_bits(words, at + 1 + ROW_WORDS * row);
    }
    if seen != 0 {
        return false;
    }
    few_zero(words, at + 1 + ROW_WORDS * rows, (n - 1) % ROW_WORDS)
}

// Whether neither edge has more runs than places.
fn few_runs(words: &[u64]) -> bool
    requires { length words.now ≡ store_words_count }
    ensures { result ≡ both_edges (λ e. leb (run_count words.now e) max_runs) }
{
    let rising = words[RISING_COUNT] as usize;
    let falling = words[FALLING_COUNT] as usize;
    rising <= MAX_RUNS && falling <= MAX_RUNS
}

// Whether the number of tests taken is one that a store counts.
fn few_tests(words: &[u64]) -> bool
    requires { length words.now ≡ store_words_count }
    ensures { result ≡ leb (tests_taken_of words.now) max_tests }
{
    words[TESTS_WORD] <= MAX_TESTS
}

// Whether a store without tests has no runs.
fn runs_of_tests(words: &[u64]) -> bool
    requires { length words.now ≡ store_words_count }
    ensures { result ≡ runs_of_tests_of words.now }
{
    if 0 < words[TESTS_WORD] {
        return true;
    }
    words[RISING_COUNT] == 0 && words[FALLING_COUNT] == 0
}

// Whether the runs of both edges lie within 1 to `paths`, ascending and neither adjacent nor overlapping.
fn separated_runs(words: &[u64], paths: u64) -> bool
    requires few_runs { FewRuns words.now }
    requires paths_bound { paths ≤ 2 ^ 62 }
    ensures { result ≡ both_edges (λ e. separated_runs_of paths 1 (store_runs words.now e)) }
{
    let rising = words[RISING_COUNT] as usize;
    let falling = words[FALLING_COUNT] as usize;
    let places = &words[HEAD_WORDS..];
    separated(places, 0, rising, paths) && separated(places, MAX_RUNS, MAX_RUNS + falling, paths)
}

// Whether the words past the last run of each edge are zero.
fn zeros_after(words: &[u64]) -> bool
    requires { FewRuns words.now }
    ensures { result ≡ both_edges (λ e. all_of (λ w. eqb w 0) (words_after words.now e)) }
{
    let rising = 2 * words[RISING_COUNT] as usize;
    let falling = 2 * words[FALLING_COUNT] as usize;
    zero_words(words, HEAD_WORDS + rising, PLACE_WORDS - rising)
        && zero_words(words, FALLING_WORD + falling, PLACE_WORDS - falling)
}

// The checks of a store's words, for path numbers 1 to `paths`.
pub fn check_words(words: &[u64], paths: u64) -> Result<(), Refusal>
    requires words_len { length words.now ≡ store_words_count }
    requires paths_bound { paths ≤ 2 ^ 62 }
    ensures { answer_of result ≡ checks (store_rules paths words.now) }
{
    if !few_runs(words) {
        return Err(Refusal::RunCount);
    }
    if !few_tests(words) {
        return Err(Refusal::RunCount);
    }
    if !separated_runs(words, paths) {
        return Err(Refusal::RunRange);
    }
    if !runs_of_tests(words) {
        return Err(Refusal::RunRange);
    }
    if !zeros_after(words) {
        return Err(Refusal::WordPastRuns);
    }
    Ok(())
}

// The number of faults of each edge that sound words hold.
pub fn totals_of(words: &[u64]) -> StoreTotals
    requires { SoundWords (2 ^ 62) words.now }
    ensures { totals_in result ≡ totals_both words.now }
{
    let places = &words[HEAD_WORDS..];
    let rising = size(places, 0, words[RISING_COUNT] as usize);
    let falling = size(places, MAX_RUNS, MAX_RUNS + words[FALLING_COUNT] as usize);
    StoreTotals { rising, falling }
}

// Whether sound words hold a path's fault of an edge.
pub fn held(words: &[u64], edge: Edge, path: PathNo) -> bool
    requires { SoundWords (2 ^ 62) words.now }
    ensures { result ≡ in_runs (store_runs words.now (model_edge edge)) path.0 }
{
    let number = path.0;
    let places = &words[HEAD_WORDS..];
    match edge {
        Edge::Rising => contains(places, 0, words[RISING_COUNT] as usize, number),
        Edge::Falling => {
            contains(
                places,
                MAX_RUNS,
                MAX_RUNS + words[FALLING_COUNT] as usize,
                number,
            )
        }
    }
}
