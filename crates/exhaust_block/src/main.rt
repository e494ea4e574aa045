// Everything that tests of a small block can show: the runs and totals of the faults that some legal test of a class detects, as the listing prints
// them, then the number of the faults that no test detects and the first 20 of these in gates: `exhaust_block [CIRCUIT [CLASS]]`, without names the
// files of the current folder; a missing circuit counts as empty, a missing class file as class 2. A refusal it prints, and says its condition on
// standard error. Where a file can't be read whole it prints nothing.
#![tactic(auto)]

use exhaust_text::put_block;
use exhaust_undetected_text::fault_line;
use listing_text::inner::OUT_BYTES;
use path_faults::{FaultNo, path_of};
use path_text::print_path;
use program_files::{has_argument, is_argument, load_argument, read_listed_class};
use program_sentences::{
    NETLIST_BYTES, STDERR_FILENO, STDOUT_FILENO, print, print_condition, print_line, print_version,
};

fn print_usage(fd: i32) {
    print(fd, b"usage: exhaust_block [CIRCUIT [CLASS]]\n");
    print(
        fd,
        b"Prints what tests of a circuit of up to 6 inputs can detect, and what none can. Without names: circuit.nl, class.txt.\n",
    );
    print(
        fd,
        b"Without a class file tests are judged robustly, in class 2.\n",
    );
}

// A fault, with its path in gates.
fn print_fault(netlist: &[u8], number: u64) {
    let fault = FaultNo(number);
    print_line(STDOUT_FILENO, fault_line(fault));
    print_path(STDOUT_FILENO, netlist, path_of(fault));
}

// The faults of a list.
fn print_faults(netlist: &[u8], list: &[u64]) {
    for i in 0..list.len() {
        print_fault(netlist, list[i]);
    }
}

// What tests of a class can show on a netlist: the text, then the condition of a refusal or the faults that no test detects.
fn print_block(netlist: &[u8], class: u32) {
    let mut out = [0u8; OUT_BYTES];
    let shown = put_block(netlist, class, &mut out);
    let length = shown.length;
    print(STDOUT_FILENO, &out[..length]);
    let answer = shown.answer;
    let faults = shown.faults;
    let numbers = faults.numbers;
    let count = faults.count;
    match answer {
        Err(why) => print_condition(STDERR_FILENO, why),
        Ok(_) => print_faults(netlist, &numbers[..count]),
    }
}

fn main(rt: HostRuntime) {
    if is_argument(&rt, 1, b"--help") {
        print_usage(STDOUT_FILENO);
        return;
    }
    if is_argument(&rt, 1, b"--version") {
        print_version();
        return;
    }
    if has_argument(&rt, 3) {
        print_usage(STDERR_FILENO);
        return;
    }
    let mut bytes = [0u8; NETLIST_BYTES];
    let circuit = load_argument(&rt, 1, b"circuit.nl", &mut bytes);
    let length = circuit.bytes;
    let read = read_listed_class(&rt, 2);
    if circuit.whole && read.whole {
        print_block(&bytes[..length], read.class);
    }
}
