// The calls that write path, report, the records of a load or the converter's netlist file, by their verbs: each with its bytes out of cells and back.
mod calls;

use crate::buffers::{path_buffer, tests_buffer};
use crate::names::{BENCH, FIND, LOAD, WRITE};
use case_script::answers::{Answer, unknown};
use case_script::copies::{Word, load, save};
use case_script::numbers::{Numbers, are, number_at, numbers_in};
use case_script::pages::{
    Lengths, PATH_PLACE, PATH_START, REPORT_PLACE, REPORT_START, TESTS_PLACE, TESTS_START, end_of,
    length_at, part,
};
use case_script::words::{after_word, key_of};

// A call that writes words, out of cells and back into them.
fn in_cells<W: Word, F: FnOnce(&mut [W]) -> Answer>(
    words: &mut [W],
    cells: &mut [u64],
    call: F,
) -> Answer
    requires { F.IsAlwaysCallable call }
{
    let length = cells.len();
    if words.len() < length {
        return unknown();
    }
    load(cells, words);
    let answer = call(&mut words[0..length]);
    save(words, cells);
    answer
}

// `find`, with a number: its path goes into cells.
fn ask_find(numbers: Numbers, netlist: &[u8], cells: &mut [u64]) -> Answer {
    let mut path = path_buffer();
    if are(numbers, 1) {
        let number = number_at(numbers, 0);
        return in_cells(
            &mut path,
            cells,
            |words| calls::find(netlist, number, words),
        );
    }
    unknown()
}

// `find`, on the cells of the path.
fn ask_path(numbers: Numbers, netlist: &[u8], length: usize, cells: &mut [u64]) -> Answer {
    let end = end_of(PATH_START, length);
    if cells.len() < end {
        return unknown();
    }
    ask_find(numbers, netlist, &mut cells[PATH_START..end])
}

// `write`: the report goes into cells.
fn ask_write(numbers: Numbers, netlist: &[u8], store: &[u64], cells: &mut [u64]) -> Answer {
    let mut report = io::large_buffer();
    if are(numbers, 0) {
        return in_cells(
            &mut report,
            cells,
            |bytes| calls::write(netlist, store, bytes),
        );
    }
    unknown()
}

// `write`, on the cells of the report.
fn ask_report(
    numbers: Numbers,
    netlist: &[u8],
    length: usize,
    store: &[u64],
    cells: &mut [u64],
) -> Answer {
    let end = end_of(REPORT_START, length);
    if cells.len() < end {
        return unknown();
    }
    ask_write(numbers, netlist, store, &mut cells[REPORT_START..end])
}

// `load`, with a state and a number of inputs, on the cells of the report: the records go there.
fn ask_load(numbers: Numbers, length: usize, cells: &mut [u64]) -> Answer {
    let mut records = io::large_buffer();
    let end = end_of(REPORT_START, length);
    if cells.len() < end {
        return unknown();
    }
    let state = number_at(numbers, 0);
    let inputs = number_at(numbers, 1);
    if are(numbers, 2) {
        return in_cells(
            &mut records,
            &mut cells[REPORT_START..end],
            |bytes| calls::write_load(state, inputs, bytes),
        );
    }
    unknown()
}

// `bench`: the text is in the cells of the tests, its netlist file goes into those of the report.
fn ask_bench(numbers: Numbers, lengths: Lengths, cells: &mut [u64]) -> Answer {
    let mut text = tests_buffer();
    let mut netlist = io::large_buffer();
    let t = length_at(lengths, TESTS_PLACE);
    let end = end_of(REPORT_START, length_at(lengths, REPORT_PLACE));
    if 1024 < t {
        return unknown();
    }
    if cells.len() < end {
        return unknown();
    }
    if are(numbers, 0) {
        load(part(cells, TESTS_START, t), &mut text);
        return in_cells(
            &mut netlist,
            &mut cells[REPORT_START..end],
            |bytes| calls::bench(&text[0..t], bytes),
        );
    }
    unknown()
}

// Calls that write path, report or the records of a load; the converter writes its netlist file into the report.
pub fn ask_writing(
    line: &[u8],
    netlist: &[u8],
    lengths: Lengths,
    store: &[u64],
    cells: &mut [u64],
) -> Answer {
    let key = key_of(line);
    let numbers = numbers_in(after_word(line));
    if key == FIND {
        return ask_path(numbers, netlist, length_at(lengths, PATH_PLACE), cells);
    }
    if key == WRITE {
        let length = length_at(lengths, REPORT_PLACE);
        return ask_report(numbers, netlist, length, store, cells);
    }
    if key == BENCH {
        return ask_bench(numbers, lengths, cells);
    }
    if key == LOAD {
        return ask_load(numbers, length_at(lengths, REPORT_PLACE), cells);
    }
    unknown()
}
