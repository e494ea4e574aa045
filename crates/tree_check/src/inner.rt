// Whether words are a tree in the layout, for our own crates. The check reads each node once. On words that are no tree it ends too: it goes down one level at
// each call, and at the first node that is wrong it ends; until then the leaves read are ascending, so no leaf is read twice.
ghost use Rattle.std.specs.Prelude.{◌≡◌, ◌+◌, ◌≤◌, leb, eqb, length};
ghost use Rattle.tree_words.specs.TreeLayout.{tree_words_count, in_space, leaf_true_of, leaf_sound_of, two_sound_of, three_sound_of, node_sound_of, sound_at_of, sound_words_of};
ghost use Rattle.tree_words.specs.TreeLayout.{space_start_of, space_end_of, leaves_at};
ghost use Rattle.tree_words.specs.Nodes.{Good};

use model::{MAX_COUNT, MAX_RUNS};
use tree_words::inner::{
    LEAF_WORDS, LOWER_START, MAX_LEVELS, NODE_WORDS, TREE_WORDS, UPPER_START, first_child,
    second_child, third_child, word,
};

// The first word of a root's space, and the word after its last.
pub fn space_start(root: usize) -> usize
    ensures { result ≡ space_start_of root }
{
    if root < UPPER_START {
        LOWER_START
    } else {
        UPPER_START
    }
}

pub fn space_end(root: usize) -> usize
    ensures { result ≡ space_end_of root }
{
    if root < UPPER_START {
        UPPER_START
    } else {
        TREE_WORDS
    }
}

// Whether n words from `at` on are used words of the space.
fn inside(start: usize, free: usize, at: usize, n: usize) -> bool
    ensures { result ≡ in_space start free at n }
{
    if at < start {
        return false;
    }
    if free < at {
        return false;
    }
    n <= free - at
}

// Whether numbers up to `high` and numbers from `low` on are apart.
fn apart(high: u64, low: u64) -> bool
    ensures { result ≡ leb (high + 2) low }
{
    if low < high {
        return false;
    }
    2 <= low - high
}

fn is_sum(total: u64, a: u64, b: u64) -> bool
    ensures { result ≡ eqb total (a + b) }
{
    if total < a {
        return false;
    }
    total - a == b
}

fn is_sum_of_three(total: u64, a: u64, b: u64, c: u64) -> bool
    ensures { result ≡ eqb total (a + b + c) }
{
    if total < a {
        return false;
    }
    is_sum(total - a, b, c)
}

fn leaf_true(words: &[u64], at: usize) -> bool
    requires { at + 3 ≤ length words.now }
    ensures { result ≡ leaf_true_of words.now at }
{
    let low = words[at];
    let high = words[at + 1];
    if low < 1 {
        return false;
    }
    if high < low {
        return false;
    }
    if MAX_COUNT < high {
        return false;
    }
    words[at + 2] == high - low + 1
}

fn leaf_sound(words: &[u64], start: usize, free: usize, at: usize) -> bool
    requires { free ≤ length words.now }
    ensures { result ≡ leaf_sound_of words.now start free at }
{
    if !inside(start, free, at, LEAF_WORDS) {
        return false;
    }
    leaf_true(words, at)
}

fn two_sound(words: &[u64], at: usize, b: usize, c: usize) -> bool
    requires { (at + 8 ≤ length words.now) × (b + 3 ≤ length words.now) × (c + 3 ≤ length words.now) }
    ensures { result ≡ two_sound_of words.now at b c }
{
    if words[at] != words[b] {
        return false;
    }
    if words[at + 1] != words[c + 1] {
        return false;
    }
    if words[at + 3] != words[c] {
        return false;
    }
    if words[at + 4] != 0 {
        return false;
    }
    if !apart(words[b + 1], words[c]) {
        return false;
    }
    is_sum(words[at + 2], words[b + 2], words[c + 2])
}

fn three_sound(words: &[u64], at: usize, b: usize, c: usize, d: usize) -> bool
    requires { (at + 8 ≤ length words.now) × (b + 3 ≤ length words.now) × (c + 3 ≤ length words.now) × (d + 3 ≤ length words.now) }
    ensures { result ≡ three_sound_of words.now at b c d }
{
    if words[at] != words[b] {
        return false;
    }
    if words[at + 1] != words[d + 1] {
        return false;
    }
    if words[at + 3] != words[c] {
        return false;
    }
    if words[at + 4] != words[d] {
        return false;
    }
    if !apart(words[b + 1], words[c]) {
        return false;
    }
    if !apart(words[c + 1], words[d]) {
        return false;
    }
    is_sum_of_three(words[at + 2], words[b + 2], words[c + 2], words[d + 2])
}

fn node_sound(words: &[u64], start: usize, free: usize, at: usize) -> bool
    requires { free ≤ length words.now }
    ensures { result ≡ node_sound_of words.now start free at }
{
    if !inside(start, free, at, NODE_WORDS) {
        return false;
    }
    let b = first_child(words, at);
    if !inside(start, free, b, LEAF_WORDS) {
        return false;
    }
    let c = second_child(words, at);
    if !inside(start, free, c, LEAF_WORDS) {
        return false;
    }
    let d = third_child(words, at);
    if d == 0 {
        return two_sound(words, at, b, c);
    }
    if !inside(start, free, d, LEAF_WORDS) {
        return false;
    }
    three_sound(words, at, b, c, d)
}

// Whether the words at `at` are a tree, `height` levels above its leaves.
fn sound_at(words: &[u64], start: usize, free: usize, height: usize, at: usize) -> bool
    requires { free ≤ length words.now }
    ensures { result ≡ sound_at_of words.now start free height at }
{
    if height == 0 {
        return leaf_sound(words, start, free, at);
    }
    if !node_sound(words, start, free, at) {
        return false;
    }
    let below = height - 1;
    let b = first_child(words, at);
    if !sound_at(words, start, free, below, b) {
        return false;
    }
    let c = second_child(words, at);
    if !sound_at(words, start, free, below, c) {
        return false;
    }
    let d = third_child(words, at);
    if d == 0 {
        return true;
    }
    sound_at(words, start, free, below, d)
}

// The number of leaves.
pub fn count_at(words: &[u64], start: usize, free: usize, height: usize, at: usize) -> usize
    requires free_in_bounds { (free ≤ length words.now) × (height ≤ 10) }
    requires good { Good words.now start free height at }
    ensures { result ≡ length (leaves_at words.now height at) }
{
    if height == 0 {
        return 1;
    }
    let below = height - 1;
    let b = count_at(words, start, free, below, first_child(words, at));
    let c = count_at(words, start, free, below, second_child(words, at));
    let third = third_child(words, at);
    if third == 0 {
        return b + c;
    }
    let d = count_at(words, start, free, below, third);
    b + c + d
}

// The check of all words.
pub fn sound_words(words: &[u64]) -> bool
    requires { tree_words_count ≤ length words.now }
    ensures { result ≡ sound_words_of words.now }
{
    let levels = word(words, 0);
    let root = word(words, 1);
    let free = word(words, 2);
    if levels == 0 {
        return root == 0 && free == 0;
    }
    if MAX_LEVELS < levels {
        return false;
    }
    if space_end(root) < free {
        return false;
    }
    let start = space_start(root);
    if !sound_at(words, start, free, levels - 1, root) {
        return false;
    }
    count_at(words, start, free, levels - 1, root) <= MAX_RUNS
}
