// Prints the runs and the totals of the faults that the tests of a file detect on a netlist, in a class, as the listing does, for some outputs only:
// `view_outputs [CIRCUIT [TESTS [CLASS [PLACES]]]]`, without names the files of the current folder; a missing file counts as empty, a missing class file
// as class 1. The places of the outputs are decimal, one a line. Where a line is none, or the netlist, the class, the file or a record is refused, it
// prints nothing, and says why on standard error; so where a file can't be read whole. A list of places that is none is refused on standard output.
#![tactic(auto)]

use listing_text::inner::OUT_BYTES;
use model::{Refusal, STORE_WORDS};
use program_files::{file_name, has_argument, is_argument, load_argument, load_file, read_class};
use program_sentences::{
    NETLIST_BYTES, STDERR_FILENO, STDOUT_FILENO, empty_line, print, print_condition, print_line,
    print_version, with_number, with_text,
};
use std::fs::File;
use std::io::Stderr;
use std::rt::{Env, Files};
use testfile_argument::store_of_tests;
use viewer_place_lines::read_places;
use viewer_text::put_view;

fn print_usage(fd: i32) {
    print(
        fd,
        b"usage: view_outputs [CIRCUIT [TESTS [CLASS [PLACES]]]]\n",
    );
    print(
        fd,
        b"Prints the tested faults of some outputs. Without names: circuit.nl, tests.tp, class.txt, places.txt.\n",
    );
}

// Why a view is refused. No test is at hand where it has too many runs.
fn print_why(why: Refusal) {
    match why {
        Refusal::StoreRuns => print(
            STDERR_FILENO,
            b"These outputs have over 1,024 runs of an edge.\n",
        ),
        _ => print_condition(STDERR_FILENO, why),
    }
}

// What a store holds for the outputs at some places.
fn print_view(netlist: &[u8], store: &[u64], places: &[u16]) {
    let mut text = [0u8; OUT_BYTES];
    let view = put_view(netlist, store, places, &mut text);
    let answer = view.answer;
    let length = view.length;
    print(STDOUT_FILENO, &text[..length]);
    match answer {
        Err(why) => print_why(why),
        Ok(()) => {}
    }
}

// The same of what the test file that the second argument names leaves, in a class.
fn view_tests<R: Env + Files<File = File>>(
    rt: &R,
    stderr: Stderr,
    netlist: &[u8],
    class: u32,
    places: &[u16],
) {
    let mut store = [0u64; STORE_WORDS];
    let tests = store_of_tests(rt, stderr, 2, netlist, class, &mut store);
    if tests.taken {
        print_view(netlist, &store, places);
    }
}

// Says that a line of a file is no place.
fn print_bad_line(name: &[u8], line: usize) {
    print(STDERR_FILENO, name);
    let text = with_number(with_text(empty_line(), b": line "), line as u64);
    print_line(
        STDERR_FILENO,
        with_text(text, b" is no output place, a decimal number up to 65,535."),
    );
}

// The view of the places that a text lists.
fn view_listed<R: Env + Files<File = File>>(
    rt: &R,
    stderr: Stderr,
    netlist: &[u8],
    class: u32,
    name: &[u8],
    text: &[u8],
) {
    let read = read_places(text);
    let answer = read.answer;
    let list = read.list;
    let places = list.places;
    let count = list.count;
    match answer {
        Err(line) => print_bad_line(name, line),
        Ok(()) => view_tests(rt, stderr, netlist, class, &places[..count]),
    }
}

// The view of the places in the file that the fourth argument names. A file that fills the space is not judged.
fn view_places<R: Env + Files<File = File>>(rt: &R, stderr: Stderr, netlist: &[u8], class: u32) {
    let mut name = io::buffer();
    let n = file_name(rt, 4, b"places.txt", &mut name);
    let mut text = io::large_buffer();
    let content = load_file(rt, &name[..n], &mut text);
    let length = content.bytes;
    if !content.whole {
        return;
    }
    if text.len() <= length {
        print(STDERR_FILENO, &name[..n]);
        print(
            STDERR_FILENO,
            b" has over 65,535 bytes, which this program does not hold.\n",
        );
        return;
    }
    view_listed(rt, stderr, netlist, class, &name[..n], &text[..length]);
}

fn main(rt: HostRuntime) {
    if is_argument(&rt, 1, b"--help") {
        print_usage(STDOUT_FILENO);
        return;
    }
    if is_argument(&rt, 1, b"--version") {
        print_version();
        return;
    }
    if has_argument(&rt, 5) {
        print_usage(STDERR_FILENO);
        return;
    }
    let mut bytes = [0u8; NETLIST_BYTES];
    let circuit = load_argument(&rt, 1, b"circuit.nl", &mut bytes);
    let length = circuit.bytes;
    let read = read_class(&rt, 3);
    if circuit.whole && read.whole {
        view_places(&rt, rt.stderr(), &bytes[..length], read.class);
    }
}
