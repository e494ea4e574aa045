// Insertion and deletion on sound words, for our own crates: the tree is cut at a run into what is below it and what is above it, and these are
// joined again, with the merged run between them or without one. Each caller proves what a function requires.
ghost use Rattle.std.specs.Prelude.{◌≡◌};
ghost use Rattle.tree_words.specs.TreeLayout.{root_in, space_start_of, tree_runs};
ghost use Rattle.tree_words.specs.Calls.{run_of, runs_with, runs_without};
ghost use Rattle.tree_lookup.specs.Lookup.{merged, removed};
ghost use Rattle.tree_change.specs.Changing.{Ready, Cuts, InsertAsk, DeleteAsk, Rebuilt, Inserts, Deletes};

use tree_check::inner::space_start;
use tree_compaction::inner::{compact, put_tree};
use tree_join::inner::{Part, join};
use tree_lookup::inner::{joined_high, joined_low};
use tree_split::inner::{above, below};
use tree_words::inner::{LEAF_WORDS, LOWER_START, put_leaf, word};

// The runs below a run and those above it, as trees.
#[derive(Drop)]
pub struct Parts {
    pub under: Part,
    pub over: Part,
}

// The runs of the words below low..high, and those above it.
fn cut(words: &mut [u64], start: usize, low: u64, high: u64) -> Parts
    requires { Ready words.old high × (start ≡ space_start_of (root_in words.old)) }
    ensures { Cuts words.old words.new start low high result.under result.over }
{
    let levels = word(words, 0);
    let root = word(words, 1);
    let free = word(words, 2);
    let under = below(words, start, free, levels - 1, root, low);
    let over = above(words, start, under.free, levels - 1, root, high);
    Parts { under, over }
}

// The tree with the run first..last, in place of the runs that low..high touches.
fn put_between(words: &mut [u64], low: u64, high: u64, first: u64, last: u64)
    requires { InsertAsk words.old low high first last }
    ensures { Rebuilt words.old words.new (merged low high (tree_runs words.old)) }
{
    let root = word(words, 1);
    let start = space_start(root);
    let parts = cut(words, start, low, high);
    let under = parts.under;
    let over = parts.over;
    let leaf = over.free;
    put_leaf(words, leaf, first, last);
    let next = leaf + LEAF_WORDS;
    let front = join(words, start, next, under.levels, under.root, 1, leaf);
    let tree = join(
        words,
        start,
        front.free,
        front.levels,
        front.root,
        over.levels,
        over.root,
    );
    put_tree(words, start, tree.levels, tree.root, tree.free);
}

// The tree without the stored run low..high.
fn take_between(words: &mut [u64], low: u64, high: u64)
    requires { DeleteAsk words.old low high }
    ensures { Rebuilt words.old words.new (removed low high (tree_runs words.old)) }
{
    let root = word(words, 1);
    let start = space_start(root);
    let parts = cut(words, start, low, high);
    let under = parts.under;
    let over = parts.over;
    let tree = join(
        words,
        start,
        over.free,
        under.levels,
        under.root,
        over.levels,
        over.root,
    );
    put_tree(words, start, tree.levels, tree.root, tree.free);
}

// Inserts low..high into sound words that have a place for it.
pub fn insert_run(words: &mut [u64], low: u64, high: u64)
    requires { Inserts words.old low high }
    ensures { Rebuilt words.old words.new (runs_with (tree_runs words.old) (run_of low high)) }
{
    let levels = word(words, 0);
    if levels == 0 {
        put_leaf(words, LOWER_START, low, high);
        put_tree(words, LOWER_START, 1, LOWER_START, LOWER_START + LEAF_WORDS);
        return;
    }
    compact(words);
    let first = joined_low(words, low);
    let last = joined_high(words, high);
    put_between(words, low, high, first, last);
}

// Deletes a stored run from sound words.
pub fn delete_run(words: &mut [u64], low: u64, high: u64)
    requires { Deletes words.old low high }
    ensures { Rebuilt words.old words.new (runs_without (tree_runs words.old) (run_of low high)) }
{
    compact(words);
    take_between(words, low, high);
}
