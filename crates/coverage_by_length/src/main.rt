// Prints how many paths of each length in gates a circuit has, and how many of their faults the tests of a file detect, in a class: `coverage_by_length
// [svg] [CIRCUIT [TESTS [CLASS]]]`, as a table, or with `svg` as a picture; without names the files of the current folder; a missing file counts as
// empty, a missing class file as class 1. Where the netlist, the class, the file or a record is refused it prints nothing, and says why on standard
// error; so where a file can't be read whole. A circuit with a path to an output of more than 63 gates is refused on standard output.
#![tactic(auto)]

ghost use Rattle.std.specs.Prelude.{◌≤◌};

use length_chart::put_chart;
use length_coverage::{LengthRows, coverage_by_length, falling_rows, rising_rows};
use length_text::put_table;
use model::{Refusal, STORE_WORDS};
use program_files::{has_argument, is_argument, load_argument, read_class};
use program_sentences::{
    NETLIST_BYTES, STDERR_FILENO, STDOUT_FILENO, empty_line, print, print_condition, print_line,
    print_version, with_refusal,
};
use std::fs::File;
use std::io::Stderr;
use std::rt::{Env, Files};
use testfile_argument::store_of_tests;

fn print_usage(fd: i32) {
    print(
        fd,
        b"usage: coverage_by_length [svg] [CIRCUIT [TESTS [CLASS]]]\n",
    );
    print(
        fd,
        b"Prints the paths of each length and their tested faults, with svg as a picture. Without names: circuit.nl, tests.tp, class.txt.\n",
    );
}

// The rows as a table or as a picture. The rows of paths are the same for both edges.
fn print_rows(rows: LengthRows, picture: bool) {
    let rising = rising_rows(rows);
    let falling = falling_rows(rows);
    let paths = rising[0];
    let rising_held = rising[1];
    let falling_held = falling[1];
    let mut text = io::large_buffer();
    if picture {
        let bytes = put_chart(&paths, &rising_held, &falling_held, &mut text);
        print(STDOUT_FILENO, &text[..bytes]);
        return;
    }
    let bytes = put_table(&paths, &rising_held, &falling_held, &mut text);
    print(STDOUT_FILENO, &text[..bytes]);
}

// A refusal of the circuit or of the store.
fn print_refusal(why: Refusal) {
    print_line(STDOUT_FILENO, with_refusal(empty_line(), why));
    print_condition(STDERR_FILENO, why);
}

// Coverage by length of the faults in a store.
fn print_coverage(netlist: &[u8], store: &[u64], picture: bool) {
    match coverage_by_length(netlist, store) {
        Ok(rows) => print_rows(rows, picture),
        Err(why) => print_refusal(why),
    }
}

// The same of the faults that the test file detects, in a class, that an argument names.
fn cover_tests<R: Env + Files<File = File>>(
    rt: &R,
    stderr: Stderr,
    netlist: &[u8],
    class: u32,
    place: usize,
    picture: bool,
) {
    let mut store = [0u64; STORE_WORDS];
    let tests = store_of_tests(rt, stderr, place, netlist, class, &mut store);
    if tests.taken {
        print_coverage(netlist, &store, picture);
    }
}

// The files that the arguments from a place on name.
fn cover_files<R: Env + Files<File = File>>(rt: &R, stderr: Stderr, first: usize, picture: bool)
    requires { first ≤ 2 }
{
    if has_argument(rt, first + 3) {
        print_usage(STDERR_FILENO);
        return;
    }
    let mut bytes = [0u8; NETLIST_BYTES];
    let circuit = load_argument(rt, first, b"circuit.nl", &mut bytes);
    let length = circuit.bytes;
    let read = read_class(rt, first + 2);
    if circuit.whole && read.whole {
        cover_tests(rt, stderr, &bytes[..length], read.class, first + 1, picture);
    }
}

fn main(rt: HostRuntime) {
    if is_argument(&rt, 1, b"--help") {
        print_usage(STDOUT_FILENO);
        return;
    }
    if is_argument(&rt, 1, b"--version") {
        print_version();
        return;
    }
    if is_argument(&rt, 1, b"svg") {
        cover_files(&rt, rt.stderr(), 2, true);
        return;
    }
    cover_files(&rt, rt.stderr(), 1, false);
}
