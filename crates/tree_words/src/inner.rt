// Nodes in words, for our own crates: reading a word as a place, and writing nodes. Each caller proves what a function requires.
ghost use Rattle.std.specs.Prelude.{◌≡◌, ◌+◌, ◌≤◌, ◌<◌, ◌^◌, length, get_or};
ghost use Rattle.tree_words.specs.TreeLayout.{high_at_of, low_at_of, total_at_of, child1, child2, child3};
ghost use Rattle.tree_words.specs.Nodes.{last_child_of, put_leaf_of, put_marks, put_two, put_three_of};

// The most levels of a tree of 1,024 runs.
pub const MAX_LEVELS: usize = 11;

pub const TREE_WORDS: usize = 32768;

// Where the two spaces begin.
pub const LOWER_START: usize = 4;

pub const UPPER_START: usize = 16384;

// The words of a leaf and of an inner node.
pub const LEAF_WORDS: usize = 3;

pub const NODE_WORDS: usize = 8;

// The word at a place, as a place.
pub fn word(words: &[u64], at: usize) -> usize
    requires { at < length words.now }
    ensures { result ≡ get_or words.now at 0 }
{
    words[at] as usize
}

// The least and the largest number below a node.
pub fn low_at(words: &[u64], at: usize) -> u64
    requires { at + 3 ≤ length words.now }
    ensures { result ≡ low_at_of words.now at }
{
    words[at]
}

pub fn high_at(words: &[u64], at: usize) -> u64
    requires { at + 3 ≤ length words.now }
    ensures { result ≡ high_at_of words.now at }
{
    words[at + 1]
}

// How many numbers the runs below a node hold.
pub fn total_at(words: &[u64], at: usize) -> u64
    requires { at + 3 ≤ length words.now }
    ensures { result ≡ total_at_of words.now at }
{
    words[at + 2]
}

// The children of an inner node; 0 for a third child that it has not.
pub fn first_child(words: &[u64], at: usize) -> usize
    requires { at + 8 ≤ length words.now }
    ensures { result ≡ child1 words.now at }
{
    word(words, at + 5)
}

pub fn second_child(words: &[u64], at: usize) -> usize
    requires { at + 8 ≤ length words.now }
    ensures { result ≡ child2 words.now at }
{
    word(words, at + 6)
}

pub fn third_child(words: &[u64], at: usize) -> usize
    requires { at + 8 ≤ length words.now }
    ensures { result ≡ child3 words.now at }
{
    word(words, at + 7)
}

// The last child of an inner node.
pub fn last_child(words: &[u64], at: usize) -> usize
    requires { at + 8 ≤ length words.now }
    ensures { result ≡ last_child_of words.now at }
{
    let third = third_child(words, at);
    if third == 0 {
        return second_child(words, at);
    }
    third
}

// Writes a leaf.
pub fn put_leaf(words: &mut [u64], at: usize, low: u64, high: u64)
    requires { (at + 3 ≤ length words.old) × (low ≤ high) × (high ≤ 2 ^ 62) }
    ensures { words.new ≡ put_leaf_of words.old at low high }
{
    words[at] = low;
    words[at + 1] = high;
    words[at + 2] = high - low + 1;
}

// What is recorded at an inner node: the numbers below it, how many, and where the second and the third child begin.
#[derive(Drop)]
pub struct Recorded {
    pub least: u64,
    pub most: u64,
    pub total: u64,
    pub second: u64,
    pub third: u64,
}

// Writes the eight words of an inner node.
fn put_node(
    words: &mut [u64],
    at: usize,
    marks: Recorded,
    child1: usize,
    child2: usize,
    child3: usize,
)
    requires { at + 8 ≤ length words.old }
    ensures { words.new ≡ put_marks words.old at marks child1 child2 child3 }
{
    words[at] = marks.least;
    words[at + 1] = marks.most;
    words[at + 2] = marks.total;
    words[at + 3] = marks.second;
    words[at + 4] = marks.third;
    words[at + 5] = child1 as u64;
    words[at + 6] = child2 as u64;
    words[at + 7] = child3 as u64;
}

// Writes an inner node with two children.
pub fn put_two(words: &mut [u64], at: usize, first: usize, second: usize)
    requires at_in_bounds { (at + 8 ≤ length words.old) × (first + 3 ≤ at) × (second + 3 ≤ at) }
    requires second_bound { total_at_of words.old first + total_at_of words.old second ≤ 2 ^ 62 }
    ensures { words.new ≡ put_two words.old at first second }
{
    let marks = Recorded {
        least: words[first],
        most: words[second + 1],
        total: words[first + 2] + words[second + 2],
        second: words[second],
        third: 0,
    };
    put_node(words, at, marks, first, second, 0);
}

// Writes an inner node with three children.
pub fn put_three(words: &mut [u64], at: usize, first: usize, second: usize, third: usize)
    requires at_in_bounds { (at + 8 ≤ length words.old) × (first + 3 ≤ at) × (second + 3 ≤ at) × (third + 3 ≤ at) }
    requires third_bound { total_at_of words.old first + total_at_of words.old second + total_at_of words.old third ≤ 2 ^ 62 }
    ensures { words.new ≡ put_three_of words.old at first second third }
{
    let marks = Recorded {
        least: words[first],
        most: words[third + 1],
        total: words[first + 2] + words[second + 2] + words[third + 2],
        second: words[second],
        third: words[third],
    };
    put_node(words, at, marks, first, second, third);
}
