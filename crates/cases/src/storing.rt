// The calls that write store or working memory, by their verbs.
mod calls;

use crate::buffers::{record_buffer, record_cells, tests_buffer};
use crate::names::{AUDIT, CLASS, EMPTY, EXHAUST, FIRST, TEST};
use case_script::answers::{Answer, unknown};
use case_script::copies::load;
use case_script::numbers::{Numbers, are, number_at, numbers_in, put_hex};
use case_script::words::{after_word, key_of};

// `test` and a record in hexadecimal.
fn ask_test(
    class: u32,
    arguments: &[u8],
    netlist: &[u8],
    store: &mut [u64],
    work: &mut [u64],
) -> Answer {
    let mut cells = record_cells();
    let mut record = record_buffer();
    let read = put_hex(arguments, &mut cells, 0);
    let length = read.length;
    if !read.good {
        return unknown();
    }
    if 128 < length {
        return unknown();
    }
    load(&cells, &mut record);
    calls::test(netlist, &record[0..length], class, store, work)
}

// `first` and a record: the store is emptied before.
fn ask_first(
    class: u32,
    arguments: &[u8],
    netlist: &[u8],
    store: &mut [u64],
    work: &mut [u64],
) -> Answer {
    calls::empty(store);
    ask_test(class, arguments, netlist, store, work)
}

// `empty`.
fn ask_empty(numbers: Numbers, store: &mut [u64]) -> Answer {
    if are(numbers, 0) {
        return calls::empty(store);
    }
    unknown()
}

// `audit` of the test records and the report in cells.
fn ask_audit(
    class: u32,
    numbers: Numbers,
    netlist: &[u8],
    tests: &[u64],
    report: &[u64],
    store: &mut [u64],
    work: &mut [u64],
) -> Answer {
    let mut records = tests_buffer();
    let mut claim = io::large_buffer();
    let t = tests.len();
    let r = report.len();
    if 1024 < t {
        return unknown();
    }
    if 65536 < r {
        return unknown();
    }
    if are(numbers, 0) {
        load(tests, &mut records);
        load(report, &mut claim);
        return calls::audit(netlist, &records[0..t], &claim[0..r], class, store, work);
    }
    unknown()
}

// `exhaust`.
fn ask_exhaust(
    class: u32,
    numbers: Numbers,
    netlist: &[u8],
    store: &mut [u64],
    work: &mut [u64],
) -> Answer {
    if are(numbers, 0) {
        return calls::exhaust(netlist, class, store, work);
    }
    unknown()
}

// Calls that write store or working memory, those of tests in a class.
fn ask_in_class(
    class: u32,
    line: &[u8],
    netlist: &[u8],
    tests: &[u64],
    report: &[u64],
    store: &mut [u64],
    work: &mut [u64],
) -> Answer {
    let key = key_of(line);
    let arguments = after_word(line);
    match key {
        TEST => ask_test(class, arguments, netlist, store, work),
        FIRST => ask_first(class, arguments, netlist, store, work),
        EMPTY => ask_empty(numbers_in(arguments), store),
        AUDIT => ask_audit(
            class,
            numbers_in(arguments),
            netlist,
            tests,
            report,
            store,
            work,
        ),
        EXHAUST => ask_exhaust(class, numbers_in(arguments), netlist, store, work),
        _ => unknown(),
    }
}

// Where the last `rest` of so many bytes begin.
fn rest_start(bytes: usize, rest: usize) -> usize {
    if bytes < rest { 0 } else { bytes - rest }
}

// The numbers before the last `rest` bytes of a text.
fn numbers_before(text: &[u8], rest: usize) -> Numbers {
    let end = rest_start(text.len(), rest);
    if text.len() < end {
        return numbers_in(text);
    }
    numbers_in(&text[0..end])
}

// The same: `class`, a number of 32 bits and a call, or a call in class 1.
pub fn ask_storing(
    line: &[u8],
    netlist: &[u8],
    tests: &[u64],
    report: &[u64],
    store: &mut [u64],
    work: &mut [u64],
) -> Answer {
    if key_of(line) != CLASS {
        return ask_in_class(1, line, netlist, tests, report, store, work);
    }
    let arguments = after_word(line);
    let call = after_word(arguments);
    let numbers = numbers_before(arguments, call.len());
    let class = number_at(numbers, 0);
    if !are(numbers, 1) {
        return unknown();
    }
    if 4294967295 < class {
        return unknown();
    }
    ask_in_class(
        (class % 4294967296) as u32,
        call,
        netlist,
        tests,
        report,
        store,
        work,
    )
}
