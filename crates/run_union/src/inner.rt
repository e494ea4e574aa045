// Runs made in lent words: added at the end of a list, shifted, copied. Lists stand at run places, as in `run_lists`.
ghost use Rattle.std.specs.Prelude.{◌≡◌, [], ◌∷◌, ◌++◌, ◌+◌, ◌-◌, ◌*◌, ◌<◌, ◌≤◌, ◌^◌, max, length};
ghost use Rattle.model.specs.Runs.{run};
ghost use Rattle.run_lists.specs.RunLists.{RunWithin, Sound, add_run, shift_run, shift_runs, run_at, runs_in_words, write_runs_of};
ghost use Rattle.run_lists.specs.Answers.{Room, Adds};
ghost use Rattle.run_union.specs.Unions.{with_shifted, FitsWhere};

pub mod merging;
pub mod moving;

// The larger of two numbers.
fn larger(a: u64, b: u64) -> u64
    ensures { result ≡ max a b }
{
    if a < b { b } else { a }
}

// Places a run after the last one.
fn place(
    words: &mut [u64],
    start: usize,
    count: usize,
    capacity: usize,
    low: u64,
    high: u64,
) -> Option<usize>
    requires { Room words.old start count capacity }
    ensures { Adds words.old words.new start capacity (runs_in_words words.old start count ++ run low high ∷ []) result }
{
    if count < capacity {
        let at = 2 * (start + count);
        words[at] = low;
        words[at + 1] = high;
        let more = count + 1;
        Some(more)
    } else {
        None
    }
}

// Adds a run at the end, joined to the last one where they overlap or are adjacent.
pub fn append(
    words: &mut [u64],
    start: usize,
    count: usize,
    capacity: usize,
    low: u64,
    high: u64,
) -> Option<usize>
    requires room { Room words.old start count capacity }
    requires le_low { 1 ≤ low }
    ensures { Adds words.old words.new start capacity (add_run (runs_in_words words.old start count) (run low high)) result }
{
    if count == 0 {
        return place(words, start, count, capacity, low, high);
    }
    let at = 2 * (start + count) - 1;
    let last = words[at];
    if low - 1 <= last {
        words[at] = larger(last, high);
        return Some(count);
    }
    place(words, start, count, capacity, low, high)
}

// Adds run i of the same words, shifted.
fn append_run_shifted(
    words: &mut [u64],
    i: usize,
    start: usize,
    count: usize,
    capacity: usize,
    offset: u64,
) -> Option<usize>
    requires room { Room words.old start count capacity }
    requires i_lt_start { (i < start) × (offset ≤ 2 ^ 62) }
    requires run_within { RunWithin (2 ^ 62) (run_at words.old i) }
    ensures { Adds words.old words.new start capacity (add_run (runs_in_words words.old start count) (shift_run offset (run_at words.old i))) result }
{
    let low = words[2 * i] + offset;
    let high = words[2 * i + 1] + offset;
    append(words, start, count, capacity, low, high)
}

// Adds the runs from..to of the same words, shifted, one after the other.
fn append_each(
    words: &mut [u64],
    from: usize,
    to: usize,
    start: usize,
    count: usize,
    capacity: usize,
    offset: u64,
) -> Option<usize>
    requires room { Room words.old start count capacity }
    requires from_le_to { (from ≤ to) × (to ≤ start) × (offset ≤ 2 ^ 62) }
    requires sound { Sound (2 ^ 62) (runs_in_words words.old from (to - from)) }
    ensures { Adds words.old words.new start capacity (with_shifted words.old from to start count offset) result }
{
    let mut n = count;
    for i in from..to {
        n = append_run_shifted(words, i, start, n, capacity, offset)?;
    }
    Some(n)
}

// Whether the runs from..to of the words, shifted, begin apart from the last run of a list that has room for all of them.
fn fit_after(
    words: &[u64],
    from: usize,
    to: usize,
    start: usize,
    count: usize,
    capacity: usize,
    offset: u64,
) -> bool
    requires room { Room words.now start count capacity }
    requires from_lt_to { (from < to) × (to ≤ start) × (offset ≤ 2 ^ 62) × RunWithin (2 ^ 62) (run_at words.now from) }
    ensures { FitsWhere result words.now from to start count capacity offset }
{
    if capacity - count < to - from {
        return false;
    }
    words[2 * (start + count) - 1] < words[2 * from] + offset - 1
}

// Places the runs from..to of the same words, shifted, from a run place on.
fn place_shifted(words: &mut [u64], from: usize, to: usize, place: usize, offset: u64)
    requires from_le_to { (from ≤ to) × (to ≤ place) × (2 * (place + (to - from)) ≤ length words.old) × (offset ≤ 2 ^ 62) }
    requires sound { Sound (2 ^ 62) (runs_in_words words.old from (to - from)) }
    ensures { words.new ≡ write_runs_of words.old place (shift_runs offset (runs_in_words words.old from (to - from))) }
{
    for i in from..to {
        let at = place + (i - from);
        let low = words[2 * i] + offset;
        let high = words[2 * i + 1] + offset;
        words[2 * at] = low;
        words[2 * at + 1] = high;
    }
}

// Adds the runs from..to, shifted. They are apart among themselves: where the first is apart from the list, none joins another and all are placed.
fn append_rest(
    words: &mut [u64],
    from: usize,
    to: usize,
    start: usize,
    count: usize,
    capacity: usize,
    offset: u64,
) -> Option<usize>
    requires room { Room words.old start count capacity }
    requires from_le_to { (from ≤ to) × (to ≤ start) × (offset ≤ 2 ^ 62) }
    requires sound { Sound (2 ^ 62) (runs_in_words words.old from (to - from)) }
    ensures { Adds words.old words.new start capacity (with_shifted words.old from to start count offset) result }
{
    if to <= from {
        return Some(count);
    }
    let apart = fit_after(words, from, to, start, count, capacity, offset);
    if !apart {
        return append_each(words, from, to, start, count, capacity, offset);
    }
    place_shifted(words, from, to, start + count, offset);
    let more = count + (to - from);
    Some(more)
}

// Adds the runs from..to of the same words, shifted. Only the first may join the list's last run.
pub fn append_shifted(
    words: &mut [u64],
    from: usize,
    to: usize,
    start: usize,
    count: usize,
    capacity: usize,
    offset: u64,
) -> Option<usize>
    requires room { Room words.old start count capacity }
    requires from_le_to { (from ≤ to) × (to ≤ start) × (offset ≤ 2 ^ 62) }
    requires sound { Sound (2 ^ 62) (runs_in_words words.old from (to - from)) }
    ensures { Adds words.old words.new start capacity (with_shifted words.old from to start count offset) result }
{
    if to <= from {
        return Some(count);
    }
    let n = append_run_shifted(words, from, start, count, capacity, offset)?;
    append_rest(words, from + 1, to, start, n, capacity, offset)
}

// Copies runs to other words.
pub fn copy(source: &[u64], from: usize, count: usize, words: &mut [u64], start: usize)
    requires { (2 * (from + count) ≤ length source.now) × (2 * (start + count) ≤ length words.old) }
    ensures { words.new ≡ write_runs_of words.old start (runs_in_words source.now from count) }
{
    for k in 0..count {
        let s = 2 * (from + k);
        let w = 2 * (start + k);
        words[w] = source[s];
        words[w + 1] = source[s + 1];
    }
}
