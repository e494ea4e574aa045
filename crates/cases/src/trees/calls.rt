// The public calls on a tree, each with its answer as numbers.
use case_script::answers::{Answer, answered, answered_one, no_words, refused_by, two, with};
use path_faults::PathNo;
use tree::{
    tree_delete, tree_empty, tree_holds, tree_holds_each, tree_insert, tree_search, tree_total,
};

// Emptying a tree.
pub(crate) fn empty(tree: &mut [u64]) -> Answer {
    let answer = tree_empty(tree);
    answered(answer)
}

pub(crate) fn insert(low: u64, high: u64, tree: &mut [u64]) -> Answer {
    let answer = tree_insert(tree, low, high);
    answered(answer)
}

pub(crate) fn delete(low: u64, high: u64, tree: &mut [u64]) -> Answer {
    let answer = tree_delete(tree, low, high);
    answered(answer)
}

// The run found: 1, low and high, or zeros.
pub(crate) fn search(low: u64, high: u64, tree: &[u64]) -> Answer {
    let answer = tree_search(tree, low, high);
    match answer {
        Ok(Some(run)) => with(two(1, run.low), run.high),
        Ok(None) => with(two(0, 0), 0),
        Err(why) => refused_by(why),
    }
}

// How many numbers a tree holds.
pub(crate) fn total(tree: &[u64]) -> Answer {
    let answer = tree_total(tree);
    answered_one(answer)
}

// Whether a number is held, 1 or 0, and the nodes visited.
pub(crate) fn holds(number: u64, tree: &[u64]) -> Answer {
    let answer = tree_holds(tree, PathNo(number));
    match answer {
        Ok(visit) => two(visit.held as u64, visit.visited as u64),
        Err(why) => refused_by(why),
    }
}

// An answer with words more.
fn with_words(before: Answer, words: &[u64]) -> Answer {
    let mut answer = before;
    for at in 0..words.len() {
        answer = with(answer, words[at]);
    }
    answer
}

// Many numbers with places for seven answers, which are 9 before: the tree's levels, then the seven places.
pub(crate) fn each(numbers: &[u64], tree: &[u64]) -> Answer {
    let mut answers = [9; 7];
    let answer = tree_holds_each(tree, numbers, &mut answers);
    match answer {
        Ok(levels) => with_words(with(no_words(), levels as u64), &answers),
        Err(why) => refused_by(why),
    }
}
