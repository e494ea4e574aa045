// From a node to a leaf, for our own crates. Each caller proves what a function requires.
ghost use Rattle.std.specs.Prelude.{◌≡◌, ◌+◌, ◌≤◌, length};
ghost use Rattle.model.specs.Runs.{in_run};
ghost use Rattle.tree_words.specs.TreeLayout.{run_in_of, high_at_of, low_at_of};
ghost use Rattle.tree_words.specs.Nodes.{Good};
ghost use Rattle.tree_words.specs.Ways.{child_for};
ghost use Rattle.tree_descent.specs.Descent.{Reaching, Readable, Starting, child_reaching, VisitTrue};

use tree_words::inner::{first_child, second_child, third_child};

// Whether a number is held, and the nodes visited for the answer.
#[derive(Drop)]
pub struct Visit {
    pub held: bool,
    pub visited: usize,
}

// The child below which a number lies, if it lies below the node.
fn next_child(words: &[u64], at: usize, number: u64) -> usize
    requires { at + 8 ≤ length words.now }
    ensures { result ≡ child_for words.now at number }
{
    if number < words[at + 3] {
        return first_child(words, at);
    }
    let third = third_child(words, at);
    if third == 0 {
        return second_child(words, at);
    }
    if number < words[at + 4] {
        return second_child(words, at);
    }
    third
}

// Whether a number lies in a leaf's run.
fn in_leaf(words: &[u64], at: usize, number: u64) -> bool
    requires { at + 3 ≤ length words.now }
    ensures { result ≡ in_run (run_in_of words.now at) number }
{
    words[at] <= number && number <= words[at + 1]
}

// Whether a number is held below a node. One node of each level is visited.
pub fn descend(
    words: &[u64],
    start: usize,
    free: usize,
    height: usize,
    at: usize,
    number: u64,
) -> Visit
    requires free_in_bounds { (free ≤ length words.now) × (height ≤ 10) }
    requires good { Good words.now start free height at }
    ensures { VisitTrue words.now height at number result.held result.visited }
{
    if height == 0 {
        let here = in_leaf(words, at, number);
        return Visit {
            held: here,
            visited: 1,
        };
    }
    let child = next_child(words, at, number);
    let v = descend(words, start, free, height - 1, child, number);
    let held = v.held;
    let visited = v.visited + 1;
    Visit { held, visited }
}

// The child below which the first run that ends at `x` or above lies, if there is one below the node.
fn reaching_child(words: &[u64], at: usize, x: u64) -> usize
    requires { Readable words.now at }
    ensures { result ≡ child_reaching words.now at x }
{
    let first = first_child(words, at);
    if x <= words[first + 1] {
        return first;
    }
    let second = second_child(words, at);
    let third = third_child(words, at);
    if third == 0 {
        return second;
    }
    if x <= words[second + 1] {
        return second;
    }
    third
}

// The leaf of the first run that ends at `x` or above.
pub fn first_reaching(
    words: &[u64],
    start: usize,
    free: usize,
    height: usize,
    at: usize,
    x: u64,
) -> usize
    requires free_in_bounds { (free ≤ length words.now) × (x ≤ high_at_of words.now at) }
    requires good { Good words.now start free height at }
    ensures { Reaching words.now start free height at x result }
{
    if height == 0 {
        return at;
    }
    let child = reaching_child(words, at, x);
    first_reaching(words, start, free, height - 1, child, x)
}

// The leaf of the last run that begins at `x` or below.
pub fn last_starting(
    words: &[u64],
    start: usize,
    free: usize,
    height: usize,
    at: usize,
    x: u64,
) -> usize
    requires free_in_bounds { (free ≤ length words.now) × (low_at_of words.now at ≤ x) }
    requires good { Good words.now start free height at }
    ensures { Starting words.now start free height at x result }
{
    if height == 0 {
        return at;
    }
    let child = next_child(words, at, x);
    last_starting(words, start, free, height - 1, child, x)
}
