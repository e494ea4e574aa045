// The calls on a tree by their verbs: each is handed the tree's memory, of the length set.
mod calls;

use crate::names::{DELETE, EACH, EMPTY, HOLDS, INSERT, SEARCH, TOTAL, TURNS};
use case_script::answers::{Answer, accepted, unknown};
use case_script::names::TREE;
use case_script::numbers::{Numbers, are, number_at, numbers_in};
use case_script::pages::{Lengths, TREE_PLACE, TREE_START, end_of, length_at, part};
use case_script::words::{after_word, key_of};

// A number and a step; the greatest of 64 bits stays.
fn above(number: u64, step: u64) -> u64 {
    if u64::MAX - step < number {
        return u64::MAX;
    }
    number + step
}

// `insert` or `delete`, with a run.
fn change(key: u64, low: u64, high: u64, tree: &mut [u64]) -> Answer {
    if key == INSERT {
        return calls::insert(low, high, tree);
    }
    calls::delete(low, high, tree)
}

// The same for so many runs, each a step above the one before; the first refusal ends it.
fn change_runs(key: u64, low: u64, high: u64, times: u64, step: u64, tree: &mut [u64]) -> Answer {
    let mut least = low;
    let mut most = high;
    for _ in 0..times {
        let answer = change(key, least, most, tree);
        if 0 < answer.refusal {
            return answer;
        }
        least = above(least, step);
        most = above(most, step);
    }
    accepted()
}

// `insert` or `delete`, with a run or with a run, a number of runs and a step.
fn ask_change(key: u64, numbers: Numbers, tree: &mut [u64]) -> Answer {
    let low = number_at(numbers, 0);
    let high = number_at(numbers, 1);
    if are(numbers, 2) {
        return change(key, low, high, tree);
    }
    if are(numbers, 4) {
        let times = number_at(numbers, 2);
        return change_runs(key, low, high, times, number_at(numbers, 3), tree);
    }
    unknown()
}

// A run inserted and deleted so many times; the first refusal ends it.
fn turn(low: u64, high: u64, times: u64, tree: &mut [u64]) -> Answer {
    for _ in 0..times {
        let inserted = calls::insert(low, high, tree);
        if 0 < inserted.refusal {
            return inserted;
        }
        let deleted = calls::delete(low, high, tree);
        if 0 < deleted.refusal {
            return deleted;
        }
    }
    accepted()
}

// `turns`, with a run and a number.
fn ask_turns(numbers: Numbers, tree: &mut [u64]) -> Answer {
    if are(numbers, 3) {
        let low = number_at(numbers, 0);
        let high = number_at(numbers, 1);
        return turn(low, high, number_at(numbers, 2), tree);
    }
    unknown()
}

// `empty` and `total`.
fn ask_whole(key: u64, numbers: Numbers, tree: &mut [u64]) -> Answer {
    if !are(numbers, 0) {
        return unknown();
    }
    if key == EMPTY {
        return calls::empty(tree);
    }
    calls::total(tree)
}

// `search` with a run, `holds` with a number.
fn ask_one(key: u64, numbers: Numbers, tree: &[u64]) -> Answer {
    let first = number_at(numbers, 0);
    if key == HOLDS {
        if are(numbers, 1) {
            return calls::holds(first, tree);
        }
        return unknown();
    }
    if are(numbers, 2) {
        return calls::search(first, number_at(numbers, 1), tree);
    }
    unknown()
}

// `each` with up to eight numbers.
fn ask_each(numbers: Numbers, tree: &[u64]) -> Answer {
    let values = numbers.values;
    let count = numbers.count;
    if !numbers.good {
        return unknown();
    }
    calls::each(part(&values, 0, count), tree)
}

// A question to a tree.
fn ask_words(what: &[u8], tree: &mut [u64]) -> Answer {
    let key = key_of(what);
    let numbers = numbers_in(after_word(what));
    match key {
        INSERT | DELETE => ask_change(key, numbers, tree),
        TURNS => ask_turns(numbers, tree),
        EMPTY | TOTAL => ask_whole(key, numbers, tree),
        SEARCH | HOLDS => ask_one(key, numbers, tree),
        EACH => ask_each(numbers, tree),
        _ => unknown(),
    }
}

// The call on a tree that a line names.
pub fn ask_tree(line: &[u8], lengths: Lengths, cells: &mut [u64]) -> Answer {
    let end = end_of(TREE_START, length_at(lengths, TREE_PLACE));
    if key_of(line) != TREE {
        return unknown();
    }
    if cells.len() < end {
        return unknown();
    }
    ask_words(after_word(line), &mut cells[TREE_START..end])
}
