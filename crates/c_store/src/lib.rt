// The answers of the calls on a store for C: the code, 0 or the number of the refusal, and the answer words of a call that was taken. Of one that was
// refused they stay as they were.
#![tactic(auto)]

ghost use Rattle.store.specs.Answers.{totals_among};
ghost use Rattle.store_coverage.specs.TestCall.{tested_of};
ghost use Rattle.c_answer_words.specs.Codes.{Answered, edge_words, count_words, bool_word};
ghost use Rattle.length_rows.specs.Lengths.{length_words};
ghost use Rattle.length_coverage.specs.LengthAnswers.{lengths_of};
ghost use Rattle.model.specs.Returned.{answer_of};

use c_answer_words::inner::{put_rows, put_words};
use length_coverage::{LengthRows, falling_rows, rising_rows};
use model::Refusal;
use model_refusals::refusal_number;
use store::StoreTotals;
use store_coverage::TestCounts;

// The test call: for each edge the number of faults new to the store, then for each edge the number then held.
pub fn test_code(tested: Result<TestCounts, Refusal>, answer: &mut [u64; 4]) -> u32
    ensures { Answered (tested_of tested) count_words result answer.old answer.new }
{
    match tested {
        Err(why) => refusal_number(why),
        Ok(n) => put_words(
            [n.new_rising, n.new_falling, n.held_rising, n.held_falling],
            answer,
        ),
    }
}

// The number of rising, then of falling faults, that a store holds or that all pairs of a small block detect.
pub fn totals_code(totals: Result<StoreTotals, Refusal>, answer: &mut [u64; 2]) -> u32
    ensures { Answered (totals_among totals) edge_words result answer.old answer.new }
{
    match totals {
        Err(why) => refusal_number(why),
        Ok(n) => put_words([n.rising, n.falling], answer),
    }
}

// Coverage by length: for rising the paths of each length, then the faults held; the same for falling.
pub fn lengths_code(lengths: Result<LengthRows, Refusal>, answer: &mut [u64; 256]) -> u32
    ensures { Answered (lengths_of lengths) length_words result answer.old answer.new }
{
    match lengths {
        Err(why) => refusal_number(why),
        Ok(rows) => {
            put_rows(rising_rows(rows), 0, answer);
            put_rows(falling_rows(rows), 128, answer);
            0
        }
    }
}

// Whether a fault is held: 1 if it is, else 0.
pub fn held_code(held: Result<bool, Refusal>, answer: &mut [u64; 1]) -> u32
    ensures { Answered (answer_of held) bool_word result answer.old answer.new }
{
    match held {
        Err(why) => refusal_number(why),
        Ok(yes) => put_words([yes as u64], answer),
    }
}
