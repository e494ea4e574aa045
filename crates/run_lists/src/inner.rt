// Lists of runs in lent words, and what is asked of them. A list stands at run places: run i is the words 2i (low) and 2i + 1 (high) of what is lent.
ghost use Rattle.std.specs.Prelude.{◌≡◌, ◌-◌, ◌*◌, ◌^◌, ◌<◌, ◌≤◌, length};
ghost use Rattle.model.specs.Runs;
ghost use Rattle.model.specs.Runs.{in_runs, separated_runs_of};
ghost use Rattle.run_lists.specs.RunLists.{Sound, runs_in_words};
ghost use Rattle.run_lists.specs.Answers.{InsideWhere};

// How many numbers lie in the runs from..to.
pub fn size(words: &[u64], from: usize, to: usize) -> u64
    requires from_le_to { (from ≤ to) × (2 * to ≤ length words.now) }
    requires sound { Sound (2 ^ 62) (runs_in_words words.now from (to - from)) }
    ensures { result ≡ Runs.size (runs_in_words words.now from (to - from)) }
{
    let mut sum: u64 = 0;
    for i in from..to {
        sum += words[2 * i + 1] - words[2 * i] + 1;
    }
    sum
}

// Whether a number lies in one of the runs from..to, by binary search.
pub fn contains(words: &[u64], from: usize, to: usize, x: u64) -> bool
    requires from_le_to { (from ≤ to) × (2 * to ≤ length words.now) }
    requires sound { Sound (2 ^ 62) (runs_in_words words.now from (to - from)) }
    ensures { result ≡ in_runs (runs_in_words words.now from (to - from)) x }
{
    let mut lo = from;
    let mut hi = to;
    while lo < hi {
        let mid = lo + (hi - lo) / 2;
        if words[2 * mid + 1] < x {
            lo = mid + 1;
        } else {
            if x < words[2 * mid] {
                hi = mid;
            } else {
                return true;
            }
        }
    }
    false
}

// Whether the runs from..to lie within 1 to limit, ascending and neither adjacent nor overlapping.
pub fn separated(words: &[u64], from: usize, to: usize, limit: u64) -> bool
    requires { (from ≤ to) × (2 * to ≤ length words.now) × (limit ≤ 2 ^ 62) }
    ensures { result ≡ separated_runs_of limit 1 (runs_in_words words.now from (to - from)) }
{
    let mut least: u64 = 1;
    for i in from..to {
        let low = words[2 * i];
        let high = words[2 * i + 1];
        if low < least {
            return false;
        }
        if high < low {
            return false;
        }
        if limit < high {
            return false;
        }
        least = high + 2;
    }
    true
}

// 1 where a number below 2^63 is below another: the highest bit of their difference. A comparison would be compiled to a branch.
fn below(a: u64, b: u64) -> usize
    ensures { result < 2 }
{
    (std::num::wrapping_sub_u64(a, b) >> 63) as usize
}

// A step or none.
fn step_where(step: usize, once: usize) -> usize
    requires { once < 2 }
    ensures { result ≤ step }
{
    step * once
}

// The first of the runs from..to that does not end below a number, by binary search without a branch on the runs: where they lie is without a
// pattern, and a branch would be mispredicted. The contract asks less: it is only where a walk begins.
pub fn first_reaching(words: &[u64], from: usize, to: usize, x: u64) -> usize
    requires { (from ≤ to) × (2 * to ≤ length words.now) }
    ensures { (from ≤ result) × (result ≤ to) }
{
    let mut at = from;
    let mut left = to - from;
    while 0 < left {
        let half = (left + 1) / 2;
        at += step_where(half, below(words[2 * (at + half) - 1], x));
        left -= half;
    }
    at
}

// The same by a walk, for a run that is near.
fn next_reaching(words: &[u64], from: usize, to: usize, x: u64) -> usize
    requires { (from ≤ to) × (2 * to ≤ length words.now) }
    ensures { (from ≤ result) × (result ≤ to) }
{
    for i in from..to {
        if x <= words[2 * i + 1] {
            return i;
        }
    }
    to
}

// Whether each of the runs b_from..b_to of some words lies in one of the runs a_from..a_to of others. Both ascend, so one walk along both serves;
// the answer false promises nothing: the caller then makes the union.
pub fn inside(a: &[u64], a_from: usize, a_to: usize, b: &[u64], b_from: usize, b_to: usize) -> bool
    requires { (a_from ≤ a_to) × (2 * a_to ≤ length a.now) × (b_from ≤ b_to) × (2 * b_to ≤ length b.now) }
    ensures { InsideWhere result a.now a_from a_to b.now b_from b_to }
{
    if b_to <= b_from {
        return true;
    }
    let mut i = first_reaching(a, a_from, a_to, b[2 * b_from]);
    for j in b_from..b_to {
        i = next_reaching(a, i, a_to, b[2 * j]);
        if a_to <= i {
            return false;
        }
        if b[2 * j] < a[2 * i] {
            return false;
        }
        if a[2 * i + 1] < b[2 * j + 1] {
            return false;
        }
    }
    true
}
