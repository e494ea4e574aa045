// Prints the path of a number, its output and each gate on the way back to the input: `show_path NUMBER [CIRCUIT]`, the netlist circuit.nl of the
// current folder if none is named. A circuit whose name ends in .bench is .bench text, and its nets are printed with their names. What is wrong with the number it says on standard error, too.
#![tactic(auto)]

ghost use Rattle.std.specs.Prelude.{◌≡◌, length};

use netlist::survey;
use path_faults::PathNo;
use path_text::{print_bench_path, print_path};
use program_files::{argument, file_name, has_argument, is_argument, load_file};
use program_sentences::{
    NETLIST_BYTES, STDERR_FILENO, STDOUT_FILENO, empty_line, print, print_line, print_version,
    with_number, with_text,
};
use std::fs::File;
use std::rt::{Env, Files};

// The number that a word of digits stands for, below 10^19.
fn number_in(word: &[u8]) -> Option<u64> {
    if word.len() == 0 {
        return None;
    }
    let mut n: u64 = 0;
    for i in 0..word.len() {
        let c = word[i];
        if c < b'0' {
            return None;
        }
        if b'9' < c {
            return None;
        }
        if 1000000000000000000 <= n {
            return None;
        }
        n = 10 * n + ((c - b'0') as u64);
    }
    Some(n)
}

fn print_usage(fd: i32) {
    print(fd, b"usage: show_path NUMBER [CIRCUIT]\n");
    print(
        fd,
        b"Prints the path of a number. Without a name the circuit is circuit.nl; X.bench is .bench text.\n",
    );
}

// Says that a circuit has fewer paths than a number, or that numbers begin with 1.
fn say_range(number: u64, paths: u64) {
    if number == 0 {
        print(STDERR_FILENO, b"Path numbers begin with 1.\n");
        return;
    }
    if paths < number {
        let line = with_number(with_text(empty_line(), b"The circuit has only "), paths);
        print_line(STDERR_FILENO, with_text(line, b" paths."));
    }
}

// Says what is wrong with the number of a path, if anything, of a legal netlist.
fn say_number(number: u64, netlist: &[u8]) {
    match survey(netlist) {
        Err(_) => {}
        Ok(legal) => say_range(number, legal.total),
    }
}

// The number that an argument gives; 0 stands for what is no number.
fn number_argument(rt: &impl Env) -> u64 {
    let mut word = io::buffer();
    let digits = argument(rt, 1, &mut word);
    let number = number_in(&word[..digits]);
    match number {
        None => {
            print(
                STDERR_FILENO,
                b"The first argument is not a number below 10^19.\n",
            );
            0
        }
        Some(value) => value,
    }
}

// Whether the name of a file ends in `.bench`.
fn is_text_name(name: &[u8]) -> bool {
    let n = name.len();
    if n < 6 {
        return false;
    }
    if name[n - 6] != b'.' {
        return false;
    }
    if name[n - 5] != b'b' {
        return false;
    }
    if name[n - 4] != b'e' {
        return false;
    }
    if name[n - 3] != b'n' {
        return false;
    }
    if name[n - 2] != b'c' {
        return false;
    }
    name[n - 1] == b'h'
}

// The path of a number in the netlist of a file.
fn show_netlist(rt: &impl Files<File = File>, name: &[u8], number: u64) {
    let mut bytes = [0u8; NETLIST_BYTES];
    let circuit = load_file(rt, name, &mut bytes);
    let length = circuit.bytes;
    if circuit.whole {
        say_number(number, &bytes[..length]);
        print_path(STDOUT_FILENO, &bytes[..length], PathNo(number));
    }
}

// The longest text that is taken: 2 MiB.
const TEXT_BYTES: usize = 2097152;

// Zeros for a text, one byte more than the longest, so that a longer one is told apart.
fn text_space() -> [u8; 2097153]
    ensures { 2097153 ≡ length result }
{
    [0; 2097153]
}

// The path of a number in the .bench text of a file, with the names of the nets.
fn show_text(rt: &impl Files<File = File>, name: &[u8], number: u64) {
    let mut bytes = text_space();
    let text = load_file(rt, name, &mut bytes);
    let length = text.bytes;
    if !text.whole {
        return;
    }
    if TEXT_BYTES < length {
        print(
            STDERR_FILENO,
            b"The text has over 2,097,152 bytes, which this program does not hold.\n",
        );
        return;
    }
    print_bench_path(STDOUT_FILENO, &bytes[..length], PathNo(number));
}

fn main(rt: HostRuntime) {
    if is_argument(&rt, 1, b"--help") {
        print_usage(STDOUT_FILENO);
        return;
    }
    if is_argument(&rt, 1, b"--version") {
        print_version();
        return;
    }
    if has_argument(&rt, 3) {
        print_usage(STDERR_FILENO);
        return;
    }
    let number = number_argument(&rt);
    let mut name = io::buffer();
    let n = file_name(&rt, 2, b"circuit.nl", &mut name);
    if is_text_name(&name[..n]) {
        show_text(&rt, &name[..n], number);
    } else {
        show_netlist(&rt, &name[..n], number);
    }
}
