// Many questions to sound words.
ghost use Rattle.std.specs.Prelude.{◌≡◌, ◌⊎◌, ◌≤◌};
ghost use Rattle.tree_words.specs.TreeLayout.{tree_runs};
ghost use Rattle.tree_words.specs.Nodes.{SoundTree};
ghost use Rattle.tree.specs.Each.{held_word_of, held_words};

use crate::inner::visit_root;
use model::{MAX_COUNT, Refusal};
use model_refusals::refusal_number;

// The answer word of a number.
fn held_word(words: &[u64], number: u64) -> u64
    requires { SoundTree words.now }
    ensures { result ≡ held_word_of (tree_runs words.now) number }
{
    if number < 1 {
        return refusal_number(Refusal::NoSuchNumber) as u64;
    }
    if MAX_COUNT < number {
        return refusal_number(Refusal::NoSuchNumber) as u64;
    }
    let v = visit_root(words, number);
    if v.held {
        return 1;
    }
    0
}

// The smaller of two lengths.
fn shorter(a: usize, b: usize) -> usize
    ensures { (result ≤ a) × (result ≤ b) × ((result ≡ a) ⊎ (result ≡ b)) }
{
    if a < b {
        return a;
    }
    b
}

// The answer words of the numbers, for as many as there are places.
pub(crate) fn answer_each(words: &[u64], numbers: &[u64], answers: &mut [u64])
    requires { SoundTree words.now }
    ensures { answers.new ≡ held_words (tree_runs words.now) numbers.now answers.old }
{
    let count = shorter(numbers.len(), answers.len());
    for i in 0..count {
        answers[i] = held_word(words, numbers[i]);
    }
}
