// Trees made of trees, for our own crates. Nodes are never changed once written: a new tree shares what it can with the trees that it is made of, and its other
// nodes are written into free words. So whatever stood below `free` stands there afterwards. Each caller proves what a function requires.
ghost use Rattle.std.specs.Prelude.{◌++◌, ◌+◌, ◌-◌, ◌*◌};
ghost use Rattle.tree_words.specs.TreeLayout.{leaves_at};
ghost use Rattle.tree_words.specs.Nodes.{Sep};
ghost use Rattle.tree_join.specs.Joining.{Beside, Room, Neighbours, AttachLast, AttachFirst, Pair, Both, Joins};
ghost use Rattle.tree_join.specs.Joining.{Grouped, AttachedLast, AttachedFirst, JoinedRight, JoinedLeft, AttachedRoot};

use tree_words::inner::{
    NODE_WORDS, first_child, last_child, put_three, put_two, second_child, third_child,
};

// One node, or two neighbours of the same height (`second` is 0 where there is one), and the first free word then.
#[derive(Drop)]
pub struct Grown {
    pub first: usize,
    pub second: usize,
    pub free: usize,
}

// A tree by its levels, 0 for none, and its root, and the first free word then.
#[derive(Drop)]
pub struct Part {
    pub levels: usize,
    pub root: usize,
    pub free: usize,
}

// Two to four neighbours (0 for one that is missing) as the children of one node, or of two.
fn group(
    words: &mut [u64],
    start: usize,
    free: usize,
    height: usize,
    a: usize,
    b: usize,
    c: usize,
    d: usize,
) -> Grown
    requires room { Room words.old start free 16 }
    requires neighbours { Neighbours words.old start free height a b c d }
    ensures { Grouped words.old words.new start free height a b c d result }
{
    if c == 0 {
        put_two(words, free, a, b);
        return Grown {
            first: free,
            second: 0,
            free: free + NODE_WORDS,
        };
    }
    if d == 0 {
        put_three(words, free, a, b, c);
        return Grown {
            first: free,
            second: 0,
            free: free + NODE_WORDS,
        };
    }
    let next = free + NODE_WORDS;
    put_two(words, free, a, b);
    put_two(words, next, c, d);
    Grown {
        first: free,
        second: next,
        free: next + NODE_WORDS,
    }
}

// The node `at` with its last child replaced by one node or two.
fn attach_last(
    words: &mut [u64],
    start: usize,
    free: usize,
    height: usize,
    at: usize,
    first: usize,
    second: usize,
) -> Grown
    requires room { Room words.old start free 16 }
    requires attach_last { AttachLast words.old start free height at first second }
    ensures { AttachedLast words.old words.new start free height at first second result }
{
    let child1 = first_child(words, at);
    let child2 = second_child(words, at);
    let child3 = third_child(words, at);
    if child3 == 0 {
        return group(words, start, free, height, child1, first, second, 0);
    }
    group(words, start, free, height, child1, child2, first, second)
}

// The node `at` with its first child replaced by one node or two.
fn attach_first(
    words: &mut [u64],
    start: usize,
    free: usize,
    height: usize,
    at: usize,
    first: usize,
    second: usize,
) -> Grown
    requires room { Room words.old start free 16 }
    requires attach_first { AttachFirst words.old start free height at first second }
    ensures { AttachedFirst words.old words.new start free height at first second result }
{
    let child2 = second_child(words, at);
    let child3 = third_child(words, at);
    if second == 0 {
        return group(words, start, free, height, first, child2, child3, 0);
    }
    group(words, start, free, height, first, second, child2, child3)
}

// A tree with a lower one of height `low` behind it.
fn join_right(
    words: &mut [u64],
    start: usize,
    free: usize,
    height: usize,
    at: usize,
    low: usize,
    other: usize,
) -> Grown
    requires room { Room words.old start free (16 * (height - low)) }
    requires beside { Beside words.old start free height at low other }
    requires sep { Sep (leaves_at words.old height at ++ leaves_at words.old low other) }
    ensures { JoinedRight words.old words.new start free height at low other result }
{
    if height == low {
        return Grown {
            first: at,
            second: other,
            free,
        };
    }
    let below = height - 1;
    let last = last_child(words, at);
    let g = join_right(words, start, free, below, last, low, other);
    attach_last(words, start, g.free, below, at, g.first, g.second)
}

// A tree with a lower one of height `low` before it.
fn join_left(
    words: &mut [u64],
    start: usize,
    free: usize,
    height: usize,
    at: usize,
    low: usize,
    other: usize,
) -> Grown
    requires room { Room words.old start free (16 * (height - low)) }
    requires beside { Beside words.old start free height at low other }
    requires sep { Sep (leaves_at words.old low other ++ leaves_at words.old height at) }
    ensures { JoinedLeft words.old words.new start free height at low other result }
{
    if height == low {
        return Grown {
            first: other,
            second: at,
            free,
        };
    }
    let below = height - 1;
    let first = first_child(words, at);
    let g = join_left(words, start, free, below, first, low, other);
    attach_first(words, start, g.free, below, at, g.first, g.second)
}

// One node or two as a tree.
fn attach_root(
    words: &mut [u64],
    start: usize,
    free: usize,
    height: usize,
    first: usize,
    next: usize,
) -> Part
    requires room { Room words.old start free 8 }
    requires pair { Pair words.old start free height first next }
    ensures { AttachedRoot words.old words.new start free height first next result }
{
    if next == 0 {
        return Part {
            levels: height + 1,
            root: first,
            free,
        };
    }
    put_two(words, free, first, next);
    Part {
        levels: height + 2,
        root: free,
        free: free + NODE_WORDS,
    }
}

// Two trees as one: the first comes before the second.
pub fn join(
    words: &mut [u64],
    start: usize,
    free: usize,
    levels1: usize,
    root1: usize,
    levels2: usize,
    root2: usize,
) -> Part
    requires room { Room words.old start free (16 * (levels1 - levels2) + 16 * (levels2 - levels1) + 8) }
    requires both { Both words.old start free levels1 root1 levels2 root2 }
    ensures { Joins words.old words.new start free levels1 root1 levels2 root2 result }
{
    if levels1 == 0 {
        return Part {
            levels: levels2,
            root: root2,
            free,
        };
    }
    if levels2 == 0 {
        return Part {
            levels: levels1,
            root: root1,
            free,
        };
    }
    if levels2 <= levels1 {
        let g = join_right(words, start, free, levels1 - 1, root1, levels2 - 1, root2);
        return attach_root(words, start, g.free, levels1 - 1, g.first, g.second);
    }
    let g = join_left(words, start, free, levels2 - 1, root2, levels1 - 1, root1);
    attach_root(words, start, g.free, levels2 - 1, g.first, g.second)
}
