// Parts of a tree as trees, for our own crates. Each caller proves what a function requires.
ghost use Rattle.std.specs.Prelude.{◌≡◌, ◌+◌, ◌-◌, ◌≤◌, ◌^◌, eqb, leb, length, ◌||◌};
ghost use Rattle.tree_words.specs.TreeLayout.{leaves_at, high_at_of, low_at_of};
ghost use Rattle.tree_split.specs.Splitting.{Splits, SplitInput};
ghost use Rattle.tree_words.specs.KeptRuns.{keep_below, keep_above};

use tree_join::inner::{Part, join};
use tree_words::inner::{NODE_WORDS, first_child, last_child, put_two, second_child, third_child};

// Whether a run that begins at `low` reaches below a node's last number, or next to it.
fn reached(words: &[u64], at: usize, low: u64) -> bool
    requires { (at + 3 ≤ length words.now) × (high_at_of words.now at ≤ 2 ^ 62) }
    ensures { result ≡ leb low (high_at_of words.now at + 1) }
{
    low <= words[at + 1] + 1
}

// Whether the second child is the last that the runs below `low` reach.
fn in_second(words: &[u64], second: usize, third: usize, low: u64) -> bool
    requires { (second + 3 ≤ length words.now) × (high_at_of words.now second ≤ 2 ^ 62) }
    ensures { result ≡ (eqb third 0 || leb low (high_at_of words.now second + 1)) }
{
    if third == 0 {
        return true;
    }
    reached(words, second, low)
}

// The runs below a node that end below the neighbour of `low`.
pub fn below(
    words: &mut [u64],
    start: usize,
    free: usize,
    height: usize,
    at: usize,
    low: u64,
) -> Part
    requires { SplitInput words.old start free height at }
    ensures { Splits words.old words.new start free height (keep_below low (leaves_at words.old height at)) result }
{
    if height == 0 {
        if reached(words, at, low) {
            return Part {
                levels: 0,
                root: 0,
                free,
            };
        }
        return Part {
            levels: 1,
            root: at,
            free,
        };
    }
    let first = first_child(words, at);
    if reached(words, first, low) {
        return below(words, start, free, height - 1, first, low);
    }
    let second = second_child(words, at);
    let third = third_child(words, at);
    if in_second(words, second, third, low) {
        let p = below(words, start, free, height - 1, second, low);
        return join(words, start, p.free, height, first, p.levels, p.root);
    }
    put_two(words, free, first, second);
    let q = below(words, start, free + NODE_WORDS, height - 1, third, low);
    join(words, start, q.free, height + 1, free, q.levels, q.root)
}

// Whether a node begins next to the number `high` or below.
fn begun(words: &[u64], at: usize, high: u64) -> bool
    requires { (at + 3 ≤ length words.now) × (high ≤ 2 ^ 62) }
    ensures { result ≡ leb (low_at_of words.now at) (high + 1) }
{
    words[at] <= high + 1
}

// The runs below a node that begin above the neighbour of `high`.
pub fn above(
    words: &mut [u64],
    start: usize,
    free: usize,
    height: usize,
    at: usize,
    high: u64,
) -> Part
    requires { SplitInput words.old start free height at × (high ≤ 2 ^ 62) }
    ensures { Splits words.old words.new start free height (keep_above high (leaves_at words.old height at)) result }
{
    if height == 0 {
        if begun(words, at, high) {
            return Part {
                levels: 0,
                root: 0,
                free,
            };
        }
        return Part {
            levels: 1,
            root: at,
            free,
        };
    }
    let last = last_child(words, at);
    if begun(words, last, high) {
        return above(words, start, free, height - 1, last, high);
    }
    let first = first_child(words, at);
    let third = third_child(words, at);
    if third == 0 {
        let p = above(words, start, free, height - 1, first, high);
        return join(words, start, p.free, p.levels, p.root, height, last);
    }
    let second = second_child(words, at);
    if begun(words, second, high) {
        let p = above(words, start, free, height - 1, second, high);
        return join(words, start, p.free, p.levels, p.root, height, last);
    }
    put_two(words, free, second, last);
    let q = above(words, start, free + NODE_WORDS, height - 1, first, high);
    join(words, start, q.free, q.levels, q.root, height + 1, free)
}
