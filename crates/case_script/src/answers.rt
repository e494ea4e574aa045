// Answers as numbers: those of the calls and those that lines state, how they are compared, counted and printed.
use crate::names::{ACCEPTED, REFUSED};
use crate::numbers::{MOST, Numbers, are, number_at, numbers_in};
use crate::words::{after_word, key_of};
use model::Refusal;
use model_refusals::refusal_number;
use program_sentences::{STDOUT_FILENO, empty_line, print, print_line, with_number, with_text};

// An answer: the number of a refusal, 0 where there is none, and the numbers that are returned. `known`: the line was understood; `open`: a line
// may state the first of the numbers alone.
#[derive(Clone, Copy)]
pub struct Answer {
    pub known: bool,
    pub open: bool,
    pub refusal: u64,
    pub count: usize,
    pub numbers: [u64; MOST],
}

// The number of the line at hand, the comparisons made so far, and the wrong lines.
#[derive(Clone, Copy)]
pub struct Tally {
    pub line: u64,
    pub compared: u64,
    pub wrong: u64,
}

// A refusal by its number in document 01.
fn refused(number: u64) -> Answer {
    Answer {
        known: true,
        open: false,
        refusal: number,
        count: 0,
        numbers: [0; MOST],
    }
}

// The refusal of a call.
pub fn refused_by(why: Refusal) -> Answer {
    refused(refusal_number(why) as u64)
}

// The answer of a call that is not refused and returns nothing else.
pub fn accepted() -> Answer {
    refused(0)
}

// The answer to a line that is not understood.
pub fn unknown() -> Answer {
    let mut answer = refused(0);
    answer.known = false;
    answer
}

// The first numbers of a memory's words, before the first of them is read.
pub fn no_words() -> Answer {
    let mut answer = refused(0);
    answer.open = true;
    answer
}

// Whether an answer has space for another number.
pub fn has_space(answer: Answer) -> bool {
    answer.count < MOST
}

// The answer with one number more; unknown where there is no space.
pub fn with(answer: Answer, number: u64) -> Answer {
    let at = answer.count;
    if MOST <= at {
        return unknown();
    }
    let mut longer = answer;
    longer.numbers[at] = number;
    longer.count = at + 1;
    longer
}

// The answer of a call that returns a number.
pub fn one(a: u64) -> Answer {
    with(accepted(), a)
}

// The answer of a call that returns nothing, or refuses.
pub fn answered(answer: Result<(), Refusal>) -> Answer {
    match answer {
        Ok(()) => accepted(),
        Err(why) => refused_by(why),
    }
}

// The answer of a call that returns a number, or refuses.
pub fn answered_one(answer: Result<u64, Refusal>) -> Answer {
    match answer {
        Ok(number) => one(number),
        Err(why) => refused_by(why),
    }
}

// The answer of a call that returns two numbers.
pub fn two(a: u64, b: u64) -> Answer {
    with(one(a), b)
}

// The answer of a call that returns four numbers.
pub fn four(a: u64, b: u64, c: u64, d: u64) -> Answer {
    with(with(two(a, b), c), d)
}

// The refusal that a line states: a number, and not 0.
fn stated_refusal(numbers: Numbers) -> Answer {
    let number = number_at(numbers, 0);
    if number == 0 {
        return unknown();
    }
    if are(numbers, 1) {
        return refused(number);
    }
    unknown()
}

// The numbers that a line states, at least one.
fn stated_numbers(numbers: Numbers) -> Answer {
    let values = numbers.values;
    if numbers.count == 0 {
        return unknown();
    }
    Answer {
        known: numbers.good,
        open: false,
        refusal: 0,
        count: numbers.count,
        numbers: values,
    }
}

// The answer that a line states after its sign =: `refused` and a number, `accepted`, or numbers.
pub fn stated_answer(part: &[u8]) -> Answer {
    let key = key_of(part);
    if key == REFUSED {
        return stated_refusal(numbers_in(after_word(part)));
    }
    if key != ACCEPTED {
        return stated_numbers(numbers_in(part));
    }
    if after_word(part).len() == 0 {
        return accepted();
    }
    unknown()
}

// Whether an answer has as many numbers as a line states: exactly so many, or at least so many where a line may state the first alone.
fn enough(stated: usize, got: Answer) -> bool {
    if got.open {
        if stated == 0 {
            return false;
        }
        return stated <= got.count;
    }
    stated == got.count
}

// Whether the first numbers of two answers are the same, as many as the first has.
fn same_numbers(stated: Answer, got: Answer) -> bool {
    let left = stated.numbers;
    let right = got.numbers;
    let count = stated.count;
    for at in 0..MOST {
        if count <= at {
            return true;
        }
        if left[at] != right[at] {
            return false;
        }
    }
    true
}

// Whether an answer is the one that a line states.
fn same(stated: Answer, got: Answer) -> bool {
    if stated.refusal != got.refusal {
        return false;
    }
    if !got.known {
        return false;
    }
    if !enough(stated.count, got) {
        return false;
    }
    same_numbers(stated, got)
}

// Writes a number.
fn print_number(number: u64) {
    let mut digits = [0u8; 20];
    let k = io::decimal(number, &mut digits);
    print(STDOUT_FILENO, &digits[..k]);
}

// Writes the numbers of an answer, a space before each.
fn print_numbers(answer: Answer) {
    let numbers = answer.numbers;
    for number in numbers.iter().take(answer.count) {
        print(STDOUT_FILENO, b" ");
        print_number(*number);
    }
}

// Writes what was answered.
fn print_answer(answer: Answer) {
    if !answer.known {
        print(STDOUT_FILENO, b"; it is not understood");
        return;
    }
    print(STDOUT_FILENO, b"; the answer is");
    if 0 < answer.refusal {
        print(STDOUT_FILENO, b" refused ");
        print_number(answer.refusal);
        return;
    }
    if answer.count == 0 {
        print(STDOUT_FILENO, b" accepted");
        return;
    }
    print_numbers(answer);
}

// A number and one more; a million stays, so that no sum can wrap.
pub fn next(number: u64) -> u64 {
    if number < 1000000 {
        return number + 1;
    }
    number
}

// Writes a line that is wrong, with its number and the answer, and counts it.
pub fn wrong_line(line: &[u8], before: Tally, answer: Answer) -> Tally {
    print(STDOUT_FILENO, b"line ");
    print_number(before.line);
    print(STDOUT_FILENO, b": ");
    print(STDOUT_FILENO, line);
    print_answer(answer);
    print(STDOUT_FILENO, b"\n");
    let mut after = before;
    after.wrong = next(before.wrong);
    after
}

// Compares an answer with the one that a line states, and counts the comparison.
pub fn compare(line: &[u8], before: Tally, stated: Answer, got: Answer) -> Tally {
    let mut after = before;
    after.compared = next(before.compared);
    if !stated.known {
        return wrong_line(line, after, stated);
    }
    if same(stated, got) {
        return after;
    }
    wrong_line(line, after, got)
}

// The tally of a script, of which the whole was read or not.
pub fn with_end(before: Tally, whole: bool) -> Tally {
    if whole {
        return before;
    }
    print(STDOUT_FILENO, b"the script is longer than its buffer\n");
    let mut after = before;
    after.wrong = next(before.wrong);
    after
}

// Writes the last line: the comparisons and the wrong lines.
pub fn print_tally(tally: Tally) {
    let line = with_text(with_number(empty_line(), tally.compared), b" comparisons, ");
    print_line(
        STDOUT_FILENO,
        with_text(with_number(line, tally.wrong), b" wrong"),
    );
}
