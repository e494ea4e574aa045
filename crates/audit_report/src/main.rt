// Audits a report of the tests of a file on a netlist, in a class: `audit_report [--all] [CIRCUIT [TESTS [REPORT [CLASS]]]]`, without names those of
// the current folder; a missing file counts as empty, a missing class file as class 1. Prints the audit's answer, the class that it judged by, its
// reason as a sentence, and what is false in a report that is refused for its length or its bytes. Where a file can't be read whole it gives no
// verdict.
#![tactic(auto)]

mod claims;
mod explaining;

ghost use Rattle.std.specs.Prelude.{◌≡◌, ◌≤◌, length};
ghost use Rattle.io.specs.Counts.{IsPrefixLen};

use crate::explaining::explain;
use model::{NON_ROBUST, REPORT_BYTES, ROBUST, Refusal, STORE_WORDS, WORK_WORDS, known_class};
use program_files::{
    close_file, file_name, has_argument, is_argument, load_argument, open_file, read_class,
};
use program_sentences::{
    Line, NETLIST_BYTES, STDERR_FILENO, STDOUT_FILENO, empty_line, print, print_condition,
    print_line, print_version, with_number, with_text,
};
use report_bytes::layout::HEAD_BYTES;
use report_runs::inner::head_of;
use report_verdict::{class_line, is_of_record, verdict_line};
use std::fs::File;
use std::io::Stderr;
use std::rt::{Env, Files};
use testfile_argument::report_file;
use testfile_judged::{Judged, audit_stream};

// Zeros for a report: one byte more than the longest whose fields can state its length (2 times 65,535 runs), so that a longer file is refused
// as it would be whole.
fn report_buffer() -> [u8; 2097155]
    ensures { 2097155 ≡ length result }
{
    [0; 2097155]
}

// A number and one more. Nothing that is counted here comes near the largest number.
pub(crate) fn one_more(number: u64) -> u64 {
    if number < u64::MAX {
        return number + 1;
    }
    number
}

fn print_usage(fd: i32) {
    print(
        fd,
        b"usage: audit_report [--all] [CIRCUIT [TESTS [REPORT [CLASS]]]]\n",
    );
    print(fd, b"Audits a report of the tests on a circuit.\n");
    print(
        fd,
        b"Without names: circuit.nl, tests.tp, report.rp, class.txt. --all shows every false claim.\n",
    );
}

// The line with a number of things at its end.
fn with_count(line: Line, count: u64, one: &[u8], many: &[u8]) -> Line {
    let counted = with_number(line, count);
    if count == 1 {
        return with_text(counted, one);
    }
    with_text(counted, many)
}

// What an accepted report says.
fn print_accepted(truth: &[u8]) {
    if truth.len() < HEAD_BYTES {
        return;
    }
    let head = head_of(truth);
    print(STDOUT_FILENO, b"The report is the true report of ");
    let tests = with_count(empty_line(), head.tests, b" test: ", b" tests: ");
    let rising = with_text(with_number(tests, head.rising_faults), b" rising and ");
    let falling = with_count(
        rising,
        head.falling_faults,
        b" falling fault of ",
        b" falling faults of ",
    );
    print_line(
        STDOUT_FILENO,
        with_count(falling, head.paths, b" path.", b" paths."),
    );
}

// Whether a refusal is that of a report whose fields and runs can be compared with the true ones.
fn is_of_claims(why: Refusal) -> bool {
    match why {
        Refusal::ReportLength => true,
        Refusal::ReportBytes => true,
        _ => false,
    }
}

// The reason of a refusal, for a test record also its place.
fn print_reason(why: Refusal, place: u64) {
    if is_of_record(why) {
        print(STDOUT_FILENO, b"Record ");
        io::print_decimal(STDOUT_FILENO, place);
        print(STDOUT_FILENO, b": ");
    }
    print_condition(STDOUT_FILENO, why);
}

// What is false in a report; all of it with `--all`.
fn print_claims(all: bool, netlist: &[u8], report: &[u8], truth: &[u8], plain: &[u8]) {
    if truth.len() < HEAD_BYTES {
        return;
    }
    let head = head_of(truth);
    explain(netlist, head.paths, report, truth, plain, all);
}

// The class, where there is one of that number.
fn print_class(class: u32) {
    if known_class(class) {
        print_line(STDOUT_FILENO, class_line(class));
    }
}

// Prints the verdict, the class, the reason, and what is false in a report.
fn print_judged(
    judged: Judged,
    all: bool,
    class: u32,
    netlist: &[u8],
    report: &[u8],
    truth: &[u8],
    plain: &[u8],
) {
    let answer = judged.answer;
    print_line(STDOUT_FILENO, verdict_line(answer));
    print_class(class);
    match answer {
        Ok(()) => print_accepted(truth),
        Err(why) => {
            print_reason(why, one_more(judged.taken as u64));
            if is_of_claims(why) {
                print_claims(all, netlist, report, truth, plain);
            }
        }
    }
}

// Whether an audit refused the claims of a report in class 2.
fn needs_plain(answer: Result<(), Refusal>, class: u32) -> bool {
    match answer {
        Ok(()) => false,
        Err(why) => class == ROBUST && is_of_claims(why),
    }
}

// The true report in class 1 of the same test file, read again, at the start of `plain`. Its length is 0 where there is none: the file can't be read
// whole again, has another length now, or is not taken whole in class 1.
fn plain_report(
    rt: &impl Files<File = File>,
    stderr: Stderr,
    name: &[u8],
    bytes: u64,
    netlist: &[u8],
    plain: &mut [u8],
) -> usize
    ensures { IsPrefixLen result plain.new }
{
    let mut store = [0u64; STORE_WORDS];
    let reported = report_file(rt, stderr, name, netlist, NON_ROBUST, plain, &mut store);
    if !reported.whole {
        return 0;
    }
    if reported.bytes != bytes {
        return 0;
    }
    reported.length
}

// Prints what an audit found, with the true report in class 1 where a report is refused for its claims in class 2.
fn print_found(
    rt: &impl Files<File = File>,
    stderr: Stderr,
    name: &[u8],
    judged: Judged,
    all: bool,
    class: u32,
    netlist: &[u8],
    report: &[u8],
    truth: &[u8],
) {
    let answer = judged.answer;
    if !needs_plain(answer, class) {
        print_judged(judged, all, class, netlist, report, truth, b"");
        return;
    }
    let mut plain = [0u8; REPORT_BYTES];
    let n = plain_report(rt, stderr, name, judged.bytes, netlist, &mut plain);
    print_judged(judged, all, class, netlist, report, truth, &plain[..n]);
}

// The audit, in a class, with the tests of the file that an argument names.
fn audit_tests<R: Env + Files<File = File>>(
    rt: &R,
    stderr: Stderr,
    place: usize,
    all: bool,
    class: u32,
    netlist: &[u8],
    report: &[u8],
) {
    let mut name = io::buffer();
    let n = file_name(rt, place, b"tests.tp", &mut name);
    let mut written = [0u8; REPORT_BYTES];
    let mut space = io::large_buffer();
    let mut store = [0u64; STORE_WORDS];
    let mut work = [0u64; WORK_WORDS];
    let opened = open_file(rt, &name[..n]);
    let judged = audit_stream(
        &opened,
        stderr,
        netlist,
        report,
        class,
        &mut written,
        &mut space,
        &mut store,
        &mut work,
    );
    let length = judged.length;
    if close_file(&name[..n], opened, judged.whole) {
        print_found(
            rt,
            stderr,
            &name[..n],
            judged,
            all,
            class,
            netlist,
            report,
            &written[..length],
        );
    }
}

// The audit, in a class, of the report that an argument names; the test file's is the argument before.
fn audit_report<R: Env + Files<File = File>>(
    rt: &R,
    stderr: Stderr,
    place: usize,
    all: bool,
    class: u32,
    netlist: &[u8],
)
    requires { (1 ≤ place) × (place ≤ 4) }
{
    let mut bytes = report_buffer();
    let claim = load_argument(rt, place, b"report.rp", &mut bytes);
    let length = claim.bytes;
    if claim.whole {
        audit_tests(rt, stderr, place - 1, all, class, netlist, &bytes[..length]);
    }
}

// The audit on the netlist that the argument `first` names.
fn audit_circuit<R: Env + Files<File = File>>(rt: &R, stderr: Stderr, first: usize, all: bool)
    requires { first ≤ 2 }
{
    if has_argument(rt, first + 4) {
        print_usage(STDERR_FILENO);
        return;
    }
    let mut bytes = [0u8; NETLIST_BYTES];
    let circuit = load_argument(rt, first, b"circuit.nl", &mut bytes);
    let length = circuit.bytes;
    let read = read_class(rt, first + 3);
    if circuit.whole && read.whole {
        audit_report(rt, stderr, first + 2, all, read.class, &bytes[..length]);
    }
}

fn main(rt: HostRuntime) {
    if is_argument(&rt, 1, b"--help") {
        print_usage(STDOUT_FILENO);
        return;
    }
    if is_argument(&rt, 1, b"--version") {
        print_version();
        return;
    }
    if is_argument(&rt, 1, b"--all") {
        audit_circuit(&rt, rt.stderr(), 2, true);
        return;
    }
    audit_circuit(&rt, rt.stderr(), 1, false);
}
