// The calls that only read, by their verbs.
mod by_length;
pub(crate) mod calls;

use crate::buffers::path_buffer;
use crate::names::{COUNTS, FALLING, FAULT, HOLDS, LENGTHS, NUMBER, RISING, SURVEY, TOTALS};
use case_script::answers::{Answer, unknown};
use case_script::copies::load;
use case_script::numbers::{Numbers, are, number_at, numbers_in};
use case_script::words::{after_word, key_of};

// `survey`, and `counts` with a question about memory.
fn ask_survey(key: u64, arguments: &[u8], netlist: &[u8]) -> Answer {
    if key == COUNTS {
        return calls::counts(netlist, arguments);
    }
    if are(numbers_in(arguments), 0) {
        return calls::survey(netlist);
    }
    unknown()
}

// `rising`, `falling` and `fault`, with a number.
fn ask_faults(key: u64, numbers: Numbers) -> Answer {
    let number = number_at(numbers, 0);
    if !are(numbers, 1) {
        return unknown();
    }
    match key {
        RISING => calls::rising(number),
        FALLING => calls::falling(number),
        _ => calls::fault(number),
    }
}

// `totals`, and `holds` with a fault.
fn ask_store(key: u64, numbers: Numbers, netlist: &[u8], store: &[u64]) -> Answer {
    if key == HOLDS {
        if are(numbers, 1) {
            return calls::holds(netlist, store, number_at(numbers, 0));
        }
        return unknown();
    }
    if are(numbers, 0) {
        return calls::totals(netlist, store);
    }
    unknown()
}

// `number`: of the path in cells.
fn ask_number(numbers: Numbers, netlist: &[u8], cells: &[u64]) -> Answer {
    let mut path = path_buffer();
    let length = cells.len();
    if 1024 < length {
        return unknown();
    }
    load(cells, &mut path);
    if are(numbers, 0) {
        return calls::number(netlist, &path[0..length]);
    }
    unknown()
}

// Calls that only read.
pub fn ask_reading(line: &[u8], netlist: &[u8], store: &[u64], path: &[u64]) -> Answer {
    let key = key_of(line);
    let arguments = after_word(line);
    match key {
        SURVEY | COUNTS => ask_survey(key, arguments, netlist),
        RISING | FALLING | FAULT => ask_faults(key, numbers_in(arguments)),
        TOTALS | HOLDS => ask_store(key, numbers_in(arguments), netlist, store),
        LENGTHS => by_length::ask_lengths(arguments, netlist, store),
        NUMBER => ask_number(numbers_in(arguments), netlist, path),
        _ => unknown(),
    }
}
