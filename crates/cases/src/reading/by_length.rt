// The call for coverage by length, by its rows.
use crate::names::{FALLING, HELD, PATHS, RISING};
use case_script::answers::{Answer, accepted, refused_by, unknown};
use case_script::cells;
use case_script::words::{after_word, key_of};
use length_coverage::{LengthRows, coverage_by_length, falling_rows, rising_rows};

// A question as about memory, of a row.
fn ask_cells(question: &[u8], row: [u64; 64]) -> Answer {
    cells::ask(question, &row)
}

// `paths` or `held`, with a question.
fn ask_row(rows: [[u64; 64]; 2], what: &[u8]) -> Answer {
    let key = key_of(what);
    let question = after_word(what);
    match key {
        PATHS => ask_cells(question, rows[0]),
        HELD => ask_cells(question, rows[1]),
        _ => unknown(),
    }
}

// `rising` or `falling` with a row; nothing, where it is only asked whether the call is taken.
fn ask_edge(rows: LengthRows, what: &[u8]) -> Answer {
    let key = key_of(what);
    let row = after_word(what);
    match key {
        0 => accepted(),
        RISING => ask_row(rising_rows(rows), row),
        FALLING => ask_row(falling_rows(rows), row),
        _ => unknown(),
    }
}

// `lengths`, alone or with an edge, a row and a question.
pub(crate) fn ask_lengths(what: &[u8], netlist: &[u8], store: &[u64]) -> Answer {
    match coverage_by_length(netlist, store) {
        Err(why) => refused_by(why),
        Ok(rows) => ask_edge(rows, what),
    }
}
