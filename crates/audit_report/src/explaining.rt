// What is false in a report that is refused for its length or its bytes: the fields that differ, the runs that are out of order, and, for an edge
// whose runs ascend, the numbers that are claimed and not detected and those that are detected and not claimed.
ghost use Rattle.std.specs.Prelude.{◌≤◌, length};

use crate::claims::print_numbers;
use crate::one_more;
use path_faults::{Edge, PathNo};
use path_text::print_path;
use program_sentences::{STDOUT_FILENO, empty_line, print_line, with_number, with_text};
use report_bytes::layout::{HEAD_BYTES, RUN_BYTES};
use report_claim_text::{faults_line, field_line, order_line};
use report_claim_words::Field;
use report_differences::inner::first::{Told, first_told};
use report_runs::inner::{Head, falling_runs, head_of, number_at, rising_runs};
use report_runs::order_of;

// A field of the head where it differs.
fn print_field(field: Field, claimed: u64, truth: u64) {
    if claimed != truth {
        print_line(STDOUT_FILENO, field_line(field, claimed, truth));
    }
}

// A number of faults where it differs, with its share of the paths.
fn print_faults(edge: Edge, claimed: u64, truth: u64, paths: u64) {
    if claimed != truth {
        print_line(STDOUT_FILENO, faults_line(edge, claimed, truth, paths));
    }
}

// The fields of the head that differ.
fn print_fields(claimed: Head, truth: Head) {
    print_field(Field::Tests, claimed.tests, truth.tests);
    print_field(Field::Paths, claimed.paths, truth.paths);
    print_field(Field::RisingRuns, claimed.rising_runs, truth.rising_runs);
    print_field(Field::FallingRuns, claimed.falling_runs, truth.falling_runs);
    print_faults(
        Edge::Rising,
        claimed.rising_faults,
        truth.rising_faults,
        truth.paths,
    );
    print_faults(
        Edge::Falling,
        claimed.falling_faults,
        truth.falling_faults,
        truth.paths,
    );
}

// The run at a place, which is out of order.
fn print_run(edge: Edge, runs: &[u8], place: usize) {
    if runs.len() / RUN_BYTES <= place {
        return;
    }
    let low = number_at(runs, RUN_BYTES * place);
    let high = number_at(runs, RUN_BYTES * place + 8);
    let line = order_line(edge, one_more(place as u64), low, high);
    print_line(STDOUT_FILENO, line);
}

// The first run that is out of order, if there is one.
fn print_order(edge: Edge, runs: &[u8]) {
    let order = order_of(runs);
    match order {
        Ok(()) => return,
        Err(place) => print_run(edge, runs, place),
    }
}

// A false claim, with its path in gates.
fn print_claim(netlist: &[u8], edge: &[u8], path: u64) {
    let named = with_text(
        with_text(empty_line(), b"The first false claim is the "),
        edge,
    );
    let line = with_number(with_text(named, b" fault of path "), path);
    print_line(STDOUT_FILENO, with_text(line, b":"));
    print_path(STDOUT_FILENO, netlist, PathNo(path));
}

// That every claim is true in class 1.
fn print_not_robust() {
    let line = with_text(
        empty_line(),
        b"No claim is false in class 1: what is claimed is detected, not robustly.",
    );
    print_line(STDOUT_FILENO, line);
}

// The first false claim, if there is one; in class 2 one that is false in class 1, too, or that there is no such claim.
fn print_first_claim(netlist: &[u8], paths: u64, report: &[u8], truth: &[u8], plain: &[u8])
    requires { (34 ≤ length report.now) × (34 ≤ length truth.now) }
{
    let told = first_told(report, truth, plain, paths);
    match told {
        Told::Nothing => return,
        Told::NotRobust => print_not_robust(),
        Told::Rising(path) => print_claim(netlist, b"rising", path),
        Told::Falling(path) => print_claim(netlist, b"falling", path),
    }
}

// What is false in a report, against the true one and, where it is at hand, the true one in class 1; all lines of numbers, or some of them.
pub(crate) fn explain(
    netlist: &[u8],
    paths: u64,
    report: &[u8],
    truth: &[u8],
    plain: &[u8],
    all: bool,
) {
    if report.len() < HEAD_BYTES {
        return;
    }
    if truth.len() < HEAD_BYTES {
        return;
    }
    print_fields(head_of(report), head_of(truth));
    print_order(Edge::Rising, rising_runs(report));
    print_order(Edge::Falling, falling_runs(report));
    print_numbers(report, truth, plain, all);
    print_first_claim(netlist, paths, report, truth, plain);
}
