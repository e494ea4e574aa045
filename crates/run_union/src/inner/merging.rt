// The union of two lists of runs: the runs of both by ascending low, each added at the end of a third list.
ghost use Rattle.std.specs.Prelude.{◌≡◌, ◌+◌, ◌-◌, ◌*◌, ◌<◌, ◌≤◌, ◌^◌, length};
ghost use Rattle.run_lists.specs.RunLists.{RunWithin, Sound, add_run, run_at, runs_in_words};
ghost use Rattle.run_lists.specs.Answers.{Room, Adds};
ghost use Rattle.run_union.specs.Unions.{left_first_of, least_after, BeginsOver, Unites};

use crate::inner::append;
use run_lists::inner::first_reaching;

// Whether the next run by ascending low is the left list's.
fn left_first(a: &[u64], i: usize, m: usize, b: &[u64], j: usize, n: usize) -> bool
    requires { (2 * m ≤ length a.now) × (2 * n ≤ length b.now) }
    ensures { result ≡ left_first_of (runs_in_words a.now i (m - i)) (runs_in_words b.now j (n - j)) }
{
    if m <= i {
        return false;
    }
    if n <= j {
        return true;
    }
    a[2 * i] <= b[2 * j]
}

// Adds run i of other words.
fn append_run(
    from: &[u64],
    i: usize,
    out: &mut [u64],
    start: usize,
    count: usize,
    capacity: usize,
) -> Option<usize>
    requires room { Room out.old start count capacity }
    requires i_in_bounds { 2 * i + 1 < length from.now }
    requires run_within { RunWithin (2 ^ 62) (run_at from.now i) }
    ensures { Adds out.old out.new start capacity (add_run (runs_in_words out.old start count) (run_at from.now i)) result }
{
    append(out, start, count, capacity, from[2 * i], from[2 * i + 1])
}

// Adds run i of the same words.
fn append_own(
    words: &mut [u64],
    i: usize,
    start: usize,
    count: usize,
    capacity: usize,
) -> Option<usize>
    requires room { Room words.old start count capacity }
    requires i_lt_start { i < start }
    requires run_within { RunWithin (2 ^ 62) (run_at words.old i) }
    ensures { Adds words.old words.new start capacity (add_run (runs_in_words words.old start count) (run_at words.old i)) result }
{
    let low = words[2 * i];
    let high = words[2 * i + 1];
    append(words, start, count, capacity, low, high)
}

// The union of the runs a_from..a_to of some words and b_from..b_to of others, written into those others from run place start on.
pub fn union(
    a: &[u64],
    a_from: usize,
    a_to: usize,
    words: &mut [u64],
    b_from: usize,
    b_to: usize,
    start: usize,
    capacity: usize,
) -> Option<usize>
    requires a_from_le_a_to { (a_from ≤ a_to) × (2 * a_to ≤ length a.now) × (b_from ≤ b_to) × (b_to ≤ start) }
    requires room { Room words.old start 0 capacity }
    requires sound { Sound (2 ^ 62) (runs_in_words a.now a_from (a_to - a_from)) × Sound (2 ^ 62) (runs_in_words words.old b_from (b_to - b_from)) }
    ensures { Unites a.now a_from a_to words.old b_from b_to start capacity words.new result }
{
    let mut i = a_from;
    let mut j = b_from;
    let mut k = 0;
    while i + j < a_to + b_to {
        if left_first(a, i, a_to, words, j, b_to) {
            let Some(c) = append_run(a, i, words, start, k, capacity) else {
                return None;
            };
            k = c;
            i += 1;
        } else {
            let Some(c) = append_own(words, j, start, k, capacity) else {
                return None;
            };
            k = c;
            j += 1;
        }
    }
    Some(k)
}

// A place up to which no run reaches one that begins with `low`: the first that does, found by search. What is found is asked at the place itself.
pub fn first_joined(words: &[u64], count: usize, low: u64) -> usize
    requires { (2 * count ≤ length words.now) × (1 ≤ low) }
    ensures { (result ≤ count) × (least_after 1 (runs_in_words words.now 0 result) ≤ low) }
{
    let at = first_reaching(words, 0, count, low - 1);
    if at == 0 {
        return 0;
    }
    if words[2 * at - 1] < low - 1 { at } else { 0 }
}

// The first of the runs from..to that begins too high for one that ends with `high` to join it.
pub fn first_apart(words: &[u64], from: usize, to: usize, high: u64) -> usize
    requires { (from ≤ to) × (2 * to ≤ length words.now) × (high ≤ 2 ^ 62) }
    ensures { (from ≤ result) × (result ≤ to) × BeginsOver high (runs_in_words words.now result (to - result)) }
{
    for i in from..to {
        if high + 1 < words[2 * i] {
            return i;
        }
    }
    to
}
