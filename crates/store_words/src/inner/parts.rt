// The parts of a store's words that others read.
ghost use Rattle.std.specs.Prelude.{◌≡◌, ltb, length};
ghost use Rattle.path_faults.specs.Answers.{model_edge};
ghost use Rattle.model.specs.Store.{store_words_count, max_tests, tests_taken_of};
ghost use Rattle.store_words.specs.Sound.{FewRuns, edge_words};

use crate::inner::{FALLING_COUNT, FALLING_WORD, RISING_COUNT};
use model::{HEAD_WORDS, MAX_TESTS, TESTS_WORD};
use path_faults::Edge;

// The number of tests taken.
pub fn tests_taken(words: &[u64]) -> u64
    requires { length words.now ≡ store_words_count }
    ensures { result ≡ tests_taken_of words.now }
{
    words[TESTS_WORD]
}

// Whether one more test can be counted.
pub fn tests_left(words: &[u64]) -> bool
    requires { length words.now ≡ store_words_count }
    ensures { result ≡ ltb (tests_taken_of words.now) max_tests }
{
    words[TESTS_WORD] < MAX_TESTS
}

// The words of an edge's runs, two for each run.
pub fn edge_runs(words: &[u64], edge: Edge) -> &[u64]
    requires { FewRuns words.now }
    ensures { result.now ≡ edge_words words.now (model_edge edge) }
{
    match edge {
        Edge::Rising => {
            let end = HEAD_WORDS + 2 * words[RISING_COUNT] as usize;
            &words[HEAD_WORDS..end]
        }
        Edge::Falling => {
            let end = FALLING_WORD + 2 * words[FALLING_COUNT] as usize;
            &words[FALLING_WORD..end]
        }
    }
}
