// The interval 2-3 tree of path numbers of one edge, over lent words.
#![tactic(auto)]

mod asking;
mod each;
pub mod inner;

ghost use Rattle.std.specs.Prelude.{◌≡◌};
ghost use Rattle.tree_words.specs.Calls.{total_call, holds_call, run_legal_of, search_call, insert_call, delete_call, run_of};
ghost use Rattle.tree.specs.Each.{EachTrue};
ghost use Rattle.tree.specs.Answers.{EmptiedTrue, ChangedTrue, holds_of, search_of};
ghost use Rattle.model.specs.Returned.{answer_of};

use crate::asking::{search_runs, total_of};
use crate::each::answer_each;
use crate::inner::visit_root;
use model::{MAX_COUNT, Refusal};
use path_faults::PathNo;
use tree_change::inner::{delete_run, insert_run};
use tree_check::inner::sound_words;
pub use tree_descent::inner::Visit;
use tree_lookup::inner::{is_full, is_stored};
use tree_words::inner::{TREE_WORDS, word};

// A run that a tree holds.
#[derive(Drop)]
pub struct TreeRun {
    pub low: u64,
    pub high: u64,
}

// Empties a tree, of any words.
pub fn tree_empty(words: &mut [u64]) -> Result<(), Refusal>
    ensures { EmptiedTrue result words.old words.new }
{
    if words.len() < TREE_WORDS {
        return Err(Refusal::TreeLength);
    }
    words[0] = 0;
    words[1] = 0;
    words[2] = 0;
    Ok(())
}

// How many numbers a tree holds.
pub fn tree_total(words: &[u64]) -> Result<u64, Refusal>
    ensures { answer_of result ≡ total_call words.now }
{
    if words.len() < TREE_WORDS {
        return Err(Refusal::TreeLength);
    }
    if !sound_words(words) {
        return Err(Refusal::TreeWords);
    }
    let total = total_of(words);
    Ok(total)
}

// Whether a tree holds a path number, with the nodes visited for the answer, root and leaf included.
pub fn tree_holds(words: &[u64], path: PathNo) -> Result<Visit, Refusal>
    ensures { holds_of result ≡ holds_call words.now path.0 }
{
    let number = path.0;
    if words.len() < TREE_WORDS {
        return Err(Refusal::TreeLength);
    }
    if !sound_words(words) {
        return Err(Refusal::TreeWords);
    }
    if number < 1 {
        return Err(Refusal::NoSuchNumber);
    }
    if MAX_COUNT < number {
        return Err(Refusal::NoSuchNumber);
    }
    let v = visit_root(words, number);
    Ok(v)
}

// Whether a tree holds each of the numbers, with one check of its words: 1 where it is held, 0 where it is not, 60 where it is no path number. As many
// numbers are answered as there are places for answers.
pub fn tree_holds_each(
    words: &[u64],
    numbers: &[u64],
    answers: &mut [u64],
) -> Result<usize, Refusal>
    ensures { EachTrue result words.now numbers.now answers.old answers.new }
{
    if words.len() < TREE_WORDS {
        return Err(Refusal::TreeLength);
    }
    if !sound_words(words) {
        return Err(Refusal::TreeWords);
    }
    answer_each(words, numbers, answers);
    let levels = word(words, 0);
    Ok(levels)
}

// Whether low..high is a run of path numbers.
fn run_legal(low: u64, high: u64) -> bool
    ensures { result ≡ run_legal_of (run_of low high) }
{
    if low < 1 {
        return false;
    }
    if high < low {
        return false;
    }
    high <= MAX_COUNT
}

// The least run that overlaps low..high, else the adjacent one with the least low.
pub fn tree_search(words: &[u64], low: u64, high: u64) -> Result<Option<TreeRun>, Refusal>
    ensures { search_of result ≡ search_call words.now (run_of low high) }
{
    if words.len() < TREE_WORDS {
        return Err(Refusal::TreeLength);
    }
    if !sound_words(words) {
        return Err(Refusal::TreeWords);
    }
    if !run_legal(low, high) {
        return Err(Refusal::RunRange);
    }
    let found = search_runs(words, low, high);
    Ok(found)
}

// Inserts the run low..high, merged with the runs that overlap it or are adjacent.
pub fn tree_insert(words: &mut [u64], low: u64, high: u64) -> Result<(), Refusal>
    ensures { ChangedTrue (insert_call words.old (run_of low high)) result words.old words.new }
{
    if words.len() < TREE_WORDS {
        return Err(Refusal::TreeLength);
    }
    if !sound_words(words) {
        return Err(Refusal::TreeWords);
    }
    if !run_legal(low, high) {
        return Err(Refusal::RunRange);
    }
    if is_full(words, low, high) {
        return Err(Refusal::StoreRuns);
    }
    insert_run(words, low, high);
    Ok(())
}

// Deletes the stored run low..high.
pub fn tree_delete(words: &mut [u64], low: u64, high: u64) -> Result<(), Refusal>
    ensures { ChangedTrue (delete_call words.old (run_of low high)) result words.old words.new }
{
    if words.len() < TREE_WORDS {
        return Err(Refusal::TreeLength);
    }
    if !sound_words(words) {
        return Err(Refusal::TreeWords);
    }
    if !run_legal(low, high) {
        return Err(Refusal::RunRange);
    }
    if !is_stored(words, low, high) {
        return Err(Refusal::NoSuchNumber);
    }
    delete_run(words, low, high);
    Ok(())
}
