// Copying a tree into other words, for our own crates, so that the words of nodes that no tree uses any more serve again.
ghost use Rattle.std.specs.Prelude.{◌+◌, ◌≤◌, length};
ghost use Rattle.tree_copy.specs.Copying.{CopyAsk, Copies};

use tree_words::inner::{
    LEAF_WORDS, NODE_WORDS, first_child, high_at, low_at, put_leaf, put_three, put_two,
    second_child, third_child,
};

// Where a copied node stands, and the first free word then.
#[derive(Drop)]
pub struct Copied {
    pub at: usize,
    pub free: usize,
}

// Writes a copy of the tree at `at`, of the words start..end, from `to` on.
pub fn copy_at(
    words: &mut [u64],
    start: usize,
    end: usize,
    to: usize,
    height: usize,
    at: usize,
) -> Copied
    requires end_in_bounds { end ≤ length words.old }
    requires copy_ask { CopyAsk words.old start end to height at }
    ensures { Copies words.old words.new to height at result.at result.free }
{
    if height == 0 {
        let low = low_at(words, at);
        let high = high_at(words, at);
        put_leaf(words, to, low, high);
        return Copied {
            at: to,
            free: to + LEAF_WORDS,
        };
    }
    let below = height - 1;
    let first = first_child(words, at);
    let second = second_child(words, at);
    let third = third_child(words, at);
    let b = copy_at(words, start, end, to, below, first);
    let c = copy_at(words, start, end, b.free, below, second);
    if third == 0 {
        put_two(words, c.free, b.at, c.at);
        return Copied {
            at: c.free,
            free: c.free + NODE_WORDS,
        };
    }
    let d = copy_at(words, start, end, c.free, below, third);
    put_three(words, d.free, b.at, c.at, d.at);
    Copied {
        at: d.free,
        free: d.free + NODE_WORDS,
    }
}
