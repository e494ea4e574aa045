// Each caller proves what a function requires.
ghost use Rattle.std.specs.Prelude.{◌≡◌, [], ◌∷◌, ◌++◌, ◌≤◌, length, get_or};
ghost use Rattle.std.proofs.lemmas.List.Edits.{sets};
ghost use Rattle.c_answer_words.specs.Codes.{code_answer, Answered, number_word};
ghost use Rattle.model.specs.Returned.{answer_of};

use model::Refusal;
use model_refusals::refusal_number;
use netlist::NetlistSurvey;

// The code of a call with no answer words: 0, or the number of the refusal.
pub fn code_of(answered: Result<(), Refusal>) -> u32
    ensures { code_answer result ≡ answer_of answered }
{
    match answered {
        Err(why) => refusal_number(why),
        Ok(()) => 0,
    }
}

// The code of a call that answers a length or a number of levels, which is its answer word.
pub fn count_code(counted: Result<usize, Refusal>, answer: &mut [u64; 1]) -> u32
    ensures { Answered (answer_of counted) number_word result answer.old answer.new }
{
    match counted {
        Err(why) => refusal_number(why),
        Ok(count) => put_words([count as u64], answer),
    }
}

// Writes all answer words, and returns the code of a call that was taken.
pub fn put_words<const N: usize>(words: [u64; N], answer: &mut [u64; N]) -> u32
    ensures value { result ≡ 0 }
    ensures answer_after { answer.new ≡ sets answer.old 0 words.entry }
{
    *answer = words;
    0
}

// Writes a survey into the answer words.
pub fn put_survey(survey: NetlistSurvey, answer: &mut [u64; 516])
    ensures { answer.new ≡ sets answer.old 0 (survey.inputs ∷ survey.gates ∷ survey.outputs ∷ survey.total ∷ survey.counts) }
{
    answer[0] = survey.inputs as u64;
    answer[1] = survey.gates as u64;
    answer[2] = survey.outputs as u64;
    answer[3] = survey.total;
    let counts = survey.counts;
    answer[4..516].copy_from_slice(&counts);
}

// Writes the rows of an edge from an answer word on: the paths, then the faults held.
pub fn put_rows(rows: [[u64; 64]; 2], at: usize, answer: &mut [u64; 256])
    requires { at ≤ 128 }
    ensures answer_after { answer.new ≡ sets answer.old at (get_or rows 0 [] ++ get_or rows 1 []) }
    ensures rows_len { length (get_or rows 0 [] ++ get_or rows 1 []) ≡ 128 }
{
    let paths = rows[0];
    let held = rows[1];
    answer[at..at + 64].copy_from_slice(&paths);
    answer[at + 64..at + 128].copy_from_slice(&held);
}
