// Runs moved within the same words, to places that may overlap those where they stand.
ghost use Rattle.std.specs.Prelude.{◌≡◌, ◌+◌, ◌*◌, ◌≤◌, length};
ghost use Rattle.run_lists.specs.RunLists.{runs_in_words, write_runs_of};

// Moves runs to lower places, the first one first.
fn move_down(words: &mut [u64], from: usize, count: usize, to: usize)
    requires { (to ≤ from) × (2 * (from + count) ≤ length words.old) }
    ensures { words.new ≡ write_runs_of words.old to (runs_in_words words.old from count) }
{
    for k in 0..count {
        let s = 2 * (from + k);
        let w = 2 * (to + k);
        let low = words[s];
        let high = words[s + 1];
        words[w] = low;
        words[w + 1] = high;
    }
}

// Moves runs to higher places, the last one first.
fn move_up(words: &mut [u64], from: usize, count: usize, to: usize)
    requires { (from ≤ to) × (2 * (to + count) ≤ length words.old) }
    ensures { words.new ≡ write_runs_of words.old to (runs_in_words words.old from count) }
{
    for k in (0..count).rev() {
        let s = 2 * (from + k);
        let w = 2 * (to + k);
        let low = words[s];
        let high = words[s + 1];
        words[w] = low;
        words[w + 1] = high;
    }
}

// Moves runs to other places of the same words.
pub fn move_runs(words: &mut [u64], from: usize, count: usize, to: usize)
    requires { (2 * (from + count) ≤ length words.old) × (2 * (to + count) ≤ length words.old) }
    ensures { words.new ≡ write_runs_of words.old to (runs_in_words words.old from count) }
{
    if to < from {
        return move_down(words, from, count, to);
    }
    if from < to {
        move_up(words, from, count, to);
    }
}
