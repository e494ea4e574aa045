// What sound words answer.
ghost use Rattle.std.specs.Prelude.{◌≡◌, ◌+◌, ◌≤◌, ◌^◌, length};
ghost use Rattle.model.specs.Runs.{size};
ghost use Rattle.tree_words.specs.TreeLayout.{tree_runs, run_in_of};
ghost use Rattle.tree.specs.Answers.{found_in};
ghost use Rattle.tree_words.specs.Calls.{run_of, overlaps, adjacent, search_runs_of};
ghost use Rattle.tree_words.specs.Nodes.{SoundTree};

use crate::TreeRun;
use tree_lookup::inner::{neighbour, overlapping};
use tree_words::inner::{total_at, word};

// How many numbers sound words hold.
pub(crate) fn total_of(words: &[u64]) -> u64
    requires { SoundTree words.now }
    ensures { result ≡ size (tree_runs words.now) }
{
    let levels = word(words, 0);
    if levels == 0 {
        return 0;
    }
    let root = word(words, 1);
    total_at(words, root)
}

// The run of a leaf.
fn run_at(words: &[u64], at: usize) -> TreeRun
    requires { at + 3 ≤ length words.now }
    ensures { run_of result.low result.high ≡ run_in_of words.now at }
{
    TreeRun {
        low: words[at],
        high: words[at + 1],
    }
}

// The least run that overlaps low..high, else the adjacent one with the least low.
pub(crate) fn search_runs(words: &[u64], low: u64, high: u64) -> Option<TreeRun>
    requires { SoundTree words.now × (1 ≤ low) × (low ≤ high) × (high ≤ 2 ^ 62) }
    ensures { found_in result ≡ search_runs_of (tree_runs words.now) (run_of low high) }
{
    let over = overlapping(words, low, high);
    if over != 0 {
        return Some(run_at(words, over));
    }
    let near = neighbour(words, low, high);
    if near != 0 {
        return Some(run_at(words, near));
    }
    None
}
