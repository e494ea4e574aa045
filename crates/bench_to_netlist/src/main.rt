// Converts a circuit in .bench text to a netlist file on standard output: `bench_to_netlist [TEXT]`, without a name circuit.bench of the current
// folder. Of a refused text it writes nothing there, and says on standard error the number, the line and the condition.
#![tactic(auto)]

ghost use Rattle.std.specs.Prelude.{◌≡◌, length};

use bench_text::{LineRefusal, NETLIST_BYTES};
use model::Refusal;
use program_files::{file_name, has_argument, is_argument, load_file};
use program_sentences::{
    STDERR_FILENO, STDOUT_FILENO, empty_line, print, print_condition, print_line, print_version,
    with_number, with_refusal, with_text,
};
use std::fs::File;
use std::rt::Files;

// The longest text that is converted: 2 MiB.
const TEXT_BYTES: usize = 2097152;

// Zeros for a text, one byte more than the longest, so that a longer one is told apart.
fn text_buffer() -> [u8; 2097153]
    ensures { 2097153 ≡ length result }
{
    [0; 2097153]
}

fn print_usage(fd: i32) {
    print(fd, b"usage: bench_to_netlist [TEXT]\n");
    print(
        fd,
        b"Writes the netlist file of a circuit in .bench text. Without a name: circuit.bench.\n",
    );
}

// The refused line, if it is one, the number and the condition.
fn print_refused(why: Refusal, line: usize) {
    if line == 0 {
        print_line(STDERR_FILENO, with_refusal(empty_line(), why));
        print_condition(STDERR_FILENO, why);
        return;
    }
    let place = with_number(with_text(empty_line(), b"line "), line as u64);
    print_line(STDERR_FILENO, with_refusal(with_text(place, b" "), why));
    print_condition(STDERR_FILENO, why);
}

// Writes the netlist file of a text, or says why there is none.
fn convert_text(text: &[u8]) {
    let mut netlist = [0u8; NETLIST_BYTES];
    let answer = bench_text::bench_to_netlist(text, &mut netlist);
    match answer {
        Err(LineRefusal { why, line }) => print_refused(why, line),
        Ok(length) => print(STDOUT_FILENO, &netlist[..length]),
    }
}

// Converts the text of a file. A text that is too long, or not read whole, is not judged.
fn convert_file(rt: &impl Files<File = File>, name: &[u8]) {
    let mut bytes = text_buffer();
    let text = load_file(rt, name, &mut bytes);
    let length = text.bytes;
    if !text.whole {
        return;
    }
    if TEXT_BYTES < length {
        print(
            STDERR_FILENO,
            b"The text has over 2,097,152 bytes, which this program does not hold.\n",
        );
        return;
    }
    convert_text(&bytes[..length]);
}

fn main(rt: HostRuntime) {
    if is_argument(&rt, 1, b"--help") {
        print_usage(STDOUT_FILENO);
        return;
    }
    if is_argument(&rt, 1, b"--version") {
        print_version();
        return;
    }
    if has_argument(&rt, 2) {
        print_usage(STDERR_FILENO);
        return;
    }
    let mut name = io::buffer();
    let n = file_name(&rt, 1, b"circuit.bench", &mut name);
    convert_file(&rt, &name[..n]);
}
