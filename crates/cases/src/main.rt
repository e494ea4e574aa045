// Makes the calls that the lines of cases.txt name and compares each answer with the one that its line states. Writes each line whose answer is
// another, or that is not understood, with its number; the last line has the number of comparisons and of wrong lines. The head of cases.txt says
// how its lines are written.
#![tactic(auto)]

mod buffers;
mod lines;
mod names;
mod reading;
mod storing;
mod trees;
mod verbs;
mod viewing;
mod writing;

ghost use Rattle.std.specs.Prelude.{◌≡◌, length};

use crate::buffers::{cells_buffer, words_buffer};
use case_script::answers;
use case_script::answers::Tally;

// The bytes of the longest script, and one more.
const SCRIPT_BYTES: usize = 131072;

// The script's buffer.
fn script_buffer() -> [u8; SCRIPT_BYTES]
    ensures { 131072 ≡ length result }
{
    [0; SCRIPT_BYTES]
}

// Makes the calls of a script, line by line, on memory that is kept from line to line.
fn run_script(script: &[u8]) -> Tally {
    let mut cells = cells_buffer();
    let mut store = words_buffer();
    let mut work = words_buffer();
    lines::run_lines(script, &mut cells, &mut store, &mut work)
}

// A script that fills its buffer may be longer than it: that is wrong, too.
fn main(rt: HostRuntime) {
    let mut script = script_buffer();
    let loaded = program_files::load_file(&rt, b"cases.txt", &mut script);
    let n = loaded.bytes;
    let tally = run_script(&script[..n]);
    answers::print_tally(answers::with_end(tally, n < SCRIPT_BYTES));
}
