// The lines of a script: those that set memory, and those that state an answer (after the sign =) and so ask for it.
ghost use Rattle.std.specs.Prelude.{◌≡◌, ◌+◌, min};

use crate::trees::ask_tree;
use crate::verbs::ask_call;
use case_script::answers::{Answer, Tally, compare, next, stated_answer, unknown, wrong_line};
use case_script::memory::{ask_memory, set_memory};
use case_script::numbers::Length;
use case_script::pages::{Lengths, MEMORIES, length_at, page_of};
use case_script::words::{find_byte, key_of};

// What a line leaves: the lengths of the memory, and the tally.
#[derive(Drop)]
struct Done {
    lengths: Lengths,
    tally: Tally,
}

// What a line leaves that sets the memory of a place: one that is not understood is wrong, and sets no length.
fn with_length(line: &[u8], before: Done, place: usize, set: Length) -> Done {
    let tally = before.tally;
    let lengths = before.lengths;
    if !set.good {
        return Done {
            lengths,
            tally: wrong_line(line, tally, unknown()),
        };
    }
    if MEMORIES <= place {
        return before;
    }
    let mut longer = lengths;
    longer.of[place] = set.length;
    Done {
        lengths: longer,
        tally,
    }
}

// A line that states no answer: it sets memory.
fn set_line(
    line: &[u8],
    before: Done,
    cells: &mut [u64],
    store: &mut [u64],
    work: &mut [u64],
) -> Done {
    let place = page_of(key_of(line)).place;
    let length = length_at(before.lengths, place);
    let set = set_memory(line, length, cells, store, work);
    with_length(line, before, place, set)
}

// The answer to a line, without the one that it states.
fn answer_to(
    line: &[u8],
    lengths: Lengths,
    cells: &mut [u64],
    store: &mut [u64],
    work: &mut [u64],
) -> Answer {
    let found = ask_memory(line, lengths, cells, store, work);
    if found.known {
        return found;
    }
    let told = ask_tree(line, lengths, cells);
    if told.known {
        return told;
    }
    ask_call(line, lengths, cells, store, work)
}

// A line that has the sign = at a place.
fn ask_line(
    line: &[u8],
    at: usize,
    before: Done,
    cells: &mut [u64],
    store: &mut [u64],
    work: &mut [u64],
) -> Done {
    let lengths = before.lengths;
    let tally = before.tally;
    if line.len() <= at {
        return before;
    }
    let end = line.len();
    let stated = stated_answer(&line[at + 1..end]);
    let got = answer_to(&line[0..at], lengths, cells, store, work);
    Done {
        lengths,
        tally: compare(line, tally, stated, got),
    }
}

// One line. Blank lines and comments do nothing.
fn run_line(
    line: &[u8],
    before: Done,
    cells: &mut [u64],
    store: &mut [u64],
    work: &mut [u64],
) -> Done {
    if line.len() == 0 {
        return before;
    }
    if line[0] == b'#' {
        return before;
    }
    let at = find_byte(line, 0, b'=');
    if at < line.len() {
        return ask_line(line, at, before, cells, store, work);
    }
    set_line(line, before, cells, store, work)
}

// Before the first line: no memory and no comparison.
fn start() -> Done {
    Done {
        lengths: Lengths { of: [0; MEMORIES] },
        tally: Tally {
            line: 0,
            compared: 0,
            wrong: 0,
        },
    }
}

// At the next line.
fn at_next(before: Done) -> Done {
    let lengths = before.lengths;
    let mut tally = before.tally;
    let line = tally.line;
    tally.line = next(line);
    Done { lengths, tally }
}

// The place after a place, the end where there is none.
fn past(place: usize, end: usize) -> usize
    ensures { result ≡ min (place + 1) end }
{
    if place < end { place + 1 } else { end }
}

// All lines of a script, one after the other.
pub(crate) fn run_lines(
    script: &[u8],
    cells: &mut [u64],
    store: &mut [u64],
    work: &mut [u64],
) -> Tally {
    let mut done = start();
    let mut at = 0;
    while at < script.len() {
        let end = find_byte(script, at, b'\n');
        done = run_line(&script[at..end], at_next(done), cells, store, work);
        at = past(end, script.len());
    }
    done.tally
}
