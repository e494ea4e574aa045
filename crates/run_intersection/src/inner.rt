// The numbers that two lists of runs have in common, as runs in lent words. Lists stand at run places, as in `run_lists`.
ghost use Rattle.std.specs.Prelude.{◌≡◌, ◌++◌, ◌+◌, ◌*◌, ◌≤◌, ◌<◌, max, min, length};
ghost use Rattle.model.specs.Runs.{run};
ghost use Rattle.run_lists.specs.RunLists.{runs_in_words};
ghost use Rattle.run_intersection.specs.Meets.{overlap, meets};

// The larger of two numbers.
fn larger(a: u64, b: u64) -> u64
    ensures { result ≡ max a b }
{
    if a < b { b } else { a }
}

// The smaller of two numbers.
fn smaller(a: u64, b: u64) -> u64
    ensures { result ≡ min a b }
{
    if a < b { a } else { b }
}

// Places what two runs have in common after the runs that stand there, and returns their number then: the same where they have nothing in common.
fn put_overlap(
    a_low: u64,
    a_high: u64,
    b_low: u64,
    b_high: u64,
    words: &mut [u64],
    count: usize,
) -> usize
    requires { 2 * count + 1 < length words.old }
    ensures { (runs_in_words words.new 0 result ≡ runs_in_words words.old 0 count ++ overlap (run a_low a_high) (run b_low b_high))
        × (count ≤ result) × (result ≤ count + 1) }
{
    let low = larger(a_low, b_low);
    let high = smaller(a_high, b_high);
    if high < low {
        return count;
    }
    words[2 * count] = low;
    words[2 * count + 1] = high;
    count + 1
}

// The runs that the first m runs of some words and the first n of others have in common, put into third words. Of the two runs at hand the one that
// ends first is passed, so that each turn passes one run and puts at most one.
pub fn common(a: &[u64], m: usize, b: &[u64], n: usize, words: &mut [u64]) -> usize
    requires { (2 * m ≤ length a.now) × (2 * n ≤ length b.now) × (2 * (m + n) ≤ length words.old) }
    ensures { (runs_in_words words.new 0 result ≡ meets (runs_in_words a.now 0 m) (runs_in_words b.now 0 n)) × (result ≤ m + n) }
{
    let mut i = 0;
    let mut j = 0;
    let mut k = 0;
    while i < m {
        if n <= j {
            return k;
        }
        let a_high = a[2 * i + 1];
        let b_high = b[2 * j + 1];
        k = put_overlap(a[2 * i], a_high, b[2 * j], b_high, words, k);
        if a_high < b_high {
            i += 1;
        } else {
            j += 1;
        }
    }
    k
}
