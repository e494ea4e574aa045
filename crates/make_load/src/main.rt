// Writes the test records of a load to standard output: `make_load [REQUEST]`, without a name load.bin of the current folder. A request of another
// length than ten bytes, or with a number of inputs outside 1 to 64, writes nothing, and standard error says why; so where it can't be read whole.
#![tactic(auto)]

ghost use Rattle.std.specs.Prelude.{◌≤◌, length};
ghost use Rattle.load_walk.specs.LoadWalk.{Walked};

use load_request::REQUEST_BYTES;
use load_walk::inner::{Walk, next_piece};
use load_walk::{StartRefusal, begin};
use model::Refusal;
use program_files::{end_progress, file_name, has_argument, is_argument, load_file, print_error};
use program_sentences::{
    STDERR_FILENO, STDOUT_FILENO, empty_line, print, print_line, print_version, with_refusal,
};
use std::io::{IsTerminal, Stderr};
use std::rt::Clock;

fn print_usage(fd: i32) {
    print(fd, b"usage: make_load [REQUEST]\n");
    print(
        fd,
        b"Writes the test records of a load. Without a name: load.bin (seed and vectors of 4 bytes each, inputs of 2, low byte first).\n",
    );
}

// The system's clock, in seconds; 0 where it tells none.
fn seconds(rt: &impl Clock) -> u64 {
    match rt.since_1970() {
        Ok(time) => time.as_secs(),
        Err(_) => 0,
    }
}

// Where standard error is a terminal and the second is another than the last time, shows how many vectors are left, over what it showed
// before. The second that was shown.
fn show_left(rt: &impl Clock, told: bool, left: usize, shown: u64) -> u64 {
    if !told {
        return shown;
    }
    let now = seconds(rt);
    if now == shown {
        return shown;
    }
    print_error(b"\r");
    io::print_decimal(STDERR_FILENO, left as u64);
    print_error(b" vectors left ");
    now
}

// Writes a load piece by piece, each drawn from where the one before it ended. The walk after the last piece that was written whole: no vector is left
// where all were.
fn write_pieces(rt: &impl Clock, stderr: Stderr, start: Walk, records: &mut [u8]) -> Walk
    requires { (1 ≤ start.inputs) × (start.inputs ≤ 64) × (2304 ≤ length records.old) }
    ensures { Walked (length records.old) start result }
{
    let told = stderr.is_terminal();
    let mut shown = seconds(rt);
    let mut walk = start;
    while 0 < walk.left {
        let next = next_piece(walk, records);
        let size = next.size;
        if !io::write_all(STDOUT_FILENO, &records[..size]) {
            return walk;
        }
        walk = next;
        shown = show_left(rt, told, walk.left, shown);
    }
    walk
}

// Writes a load, and says so where standard output does not take it whole.
fn write_load(rt: &impl Clock, stderr: Stderr, start: Walk)
    requires { (1 ≤ start.inputs) × (start.inputs ≤ 64) }
{
    let mut records = io::large_buffer();
    let last = write_pieces(rt, stderr, start, &mut records);
    end_progress(stderr);
    if 0 < last.left {
        print_error(b"standard output could not be written\n");
    }
}

// Says that the number of inputs is refused.
fn refuse_inputs() {
    print_line(
        STDERR_FILENO,
        with_refusal(empty_line(), Refusal::HeaderRange),
    );
    print_error(b"The number of inputs is not 1 to 64.\n");
}

// Writes the load that the bytes of load.bin start, or says why they start none.
fn make(rt: &impl Clock, stderr: Stderr, request: &[u8]) {
    let started = begin(request);
    match started {
        Ok(walk) => write_load(rt, stderr, walk),
        Err(StartRefusal::OtherLength) => print_error(b"the request has not 10 bytes\n"),
        Err(StartRefusal::InputsRefused) => refuse_inputs(),
    }
}

fn main(rt: HostRuntime) {
    if is_argument(&rt, 1, b"--help") {
        print_usage(STDOUT_FILENO);
        return;
    }
    if is_argument(&rt, 1, b"--version") {
        print_version();
        return;
    }
    if has_argument(&rt, 2) {
        print_usage(STDERR_FILENO);
        return;
    }
    let mut name = io::buffer();
    let n = file_name(&rt, 1, b"load.bin", &mut name);
    let mut bytes = [0u8; REQUEST_BYTES + 1];
    let request = load_file(&rt, &name[..n], &mut bytes);
    let length = request.bytes;
    if !request.whole {
        return;
    }
    make(&rt, rt.stderr(), &bytes[..length]);
}
