// The answers of the calls on a tree for C: the code, 0 or the number of the refusal, and the answer words of a call that was taken. Of one that was
// refused they stay as they were.
#![tactic(auto)]

ghost use Rattle.tree.specs.Answers.{search_of, holds_of};
ghost use Rattle.c_answer_words.specs.Codes.{Answered, number_word};
ghost use Rattle.c_tree.specs.AnswerWords.{found_words, asked_words};
ghost use Rattle.model.specs.Returned.{answer_of};

use c_answer_words::inner::put_words;
use model::Refusal;
use model_refusals::refusal_number;
use tree::{TreeRun, Visit};

// The run found: 1, its low and its high; zeros where there is none.
pub fn found_code(found: Result<Option<TreeRun>, Refusal>, answer: &mut [u64; 3]) -> u32
    ensures { Answered (search_of found) found_words result answer.old answer.new }
{
    match found {
        Err(why) => refusal_number(why),
        Ok(Some(run)) => put_words([1, run.low, run.high], answer),
        Ok(None) => put_words([0, 0, 0], answer),
    }
}

// How many numbers a tree holds.
pub fn total_code(total: Result<u64, Refusal>, answer: &mut [u64; 1]) -> u32
    ensures { Answered (answer_of total) number_word result answer.old answer.new }
{
    match total {
        Err(why) => refusal_number(why),
        Ok(numbers) => put_words([numbers], answer),
    }
}

// Whether a path number is held, 1 if it is, else 0, and the nodes visited for the answer.
pub fn holds_code(held: Result<Visit, Refusal>, answer: &mut [u64; 2]) -> u32
    ensures { Answered (holds_of held) asked_words result answer.old answer.new }
{
    match held {
        Err(why) => refusal_number(why),
        Ok(visit) => put_words([visit.held as u64, visit.visited as u64], answer),
    }
}
