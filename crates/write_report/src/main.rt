// Writes the report of the tests of a file on a netlist, in a class, to standard output: `write_report [CIRCUIT [TESTS [CLASS]]]`, without names
// those of the current folder; a missing file counts as empty, a missing class file as class 1. Where the netlist, the class, the file or a record is
// refused it writes no report, and says why on standard error;
// so where a file can't be read whole.
#![tactic(auto)]

use model::{REPORT_BYTES, STORE_WORDS};
use program_files::{has_argument, is_argument, load_argument, read_class};
use program_sentences::{NETLIST_BYTES, STDERR_FILENO, STDOUT_FILENO, print, print_version};
use std::fs::File;
use std::io::Stderr;
use std::rt::{Env, Files};
use testfile_argument::report_of_tests;

fn print_usage(fd: i32) {
    print(fd, b"usage: write_report [CIRCUIT [TESTS [CLASS]]]\n");
    print(
        fd,
        b"Writes the report of the tests on a circuit. Without names: circuit.nl, tests.tp, class.txt.\n",
    );
}

// The report, in a class, of the test file that the second argument names.
fn print_report<R: Env + Files<File = File>>(rt: &R, stderr: Stderr, netlist: &[u8], class: u32) {
    let mut report = [0u8; REPORT_BYTES];
    let mut store = [0u64; STORE_WORDS];
    let told = report_of_tests(rt, stderr, 2, netlist, class, &mut report, &mut store);
    let length = told.length;
    print(STDOUT_FILENO, &report[..length]);
}

fn main(rt: HostRuntime) {
    if is_argument(&rt, 1, b"--help") {
        print_usage(STDOUT_FILENO);
        return;
    }
    if is_argument(&rt, 1, b"--version") {
        print_version();
        return;
    }
    if has_argument(&rt, 4) {
        print_usage(STDERR_FILENO);
        return;
    }
    let mut bytes = [0u8; NETLIST_BYTES];
    let circuit = load_argument(&rt, 1, b"circuit.nl", &mut bytes);
    let length = circuit.bytes;
    let read = read_class(&rt, 3);
    if circuit.whole && read.whole {
        print_report(&rt, rt.stderr(), &bytes[..length], read.class);
    }
}
