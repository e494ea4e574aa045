// The walk over the questions, for the program that answers them: a caller proves what a function requires.
ghost use Rattle.std.specs.Prelude.{◌≡◌, ◌≤◌, length};
ghost use Rattle.io.specs.Counts.{IsPrefixLen};
ghost use Rattle.tree_filling.specs.TreesOfStore.{TreesReady};
ghost use Rattle.ask_walk.specs.InputWalk.{piece_bytes, out_bytes, InputTaken, InputAnswered};

use ask_text::inner::{Asking, Stated, put_answers, put_last};
use program_files::{print_error, print_failure};
use std::io::{Read, Stdin};

// The descriptor of standard output.
const STDOUT_FILENO: i32 = 1;

// The most bytes that are read at a time.
pub const PIECE_BYTES: usize = 512;

// No input is longer: it is the largest size that the system tells of a file.
const MOST_BYTES: u64 = 0x7FFF_FFFF_FFFF_FFFF;

// What one read brought: so many bytes at the start of the space, and whether it failed.
#[derive(Drop)]
pub struct Brought {
    pub bytes: usize,
    pub failed: bool,
}

// The state after the input, its bytes, and whether it was read to its end with all answers written.
#[derive(Drop)]
pub struct Taken {
    pub asking: Asking,
    pub bytes: u64,
    pub whole: bool,
}

// The same once what stands after the last end of a line is answered: where that answer ends in the buffer.
#[derive(Drop)]
pub struct AnsweredInput {
    pub bytes: u64,
    pub end: usize,
    pub whole: bool,
}

// One read from standard input, which does not wait for a full space: a question is answered as soon as its line has come. Where it fails standard
// error says why.
fn read_some(stdin: Stdin, space: &mut [u8]) -> Brought
    ensures { IsPrefixLen result.bytes space.new }
{
    let mut input = stdin;
    match input.read(space) {
        Ok(bytes) => Brought {
            bytes,
            failed: false,
        },
        Err(error) => {
            print_failure(b"standard input", error);
            Brought {
                bytes: 0,
                failed: true,
            }
        }
    }
}

// Writes answers to standard output. Where they can't be written standard error says so.
fn write_answers(answers: &[u8]) -> bool {
    let written = io::write_all(STDOUT_FILENO, answers);
    if !written {
        print_error(b"standard output could not be written\n");
    }
    written
}

// The state with no answer waiting.
fn none_waiting(asking: Asking) -> Asking
    ensures { (result.place ≡ asking.place) × (result.line ≡ asking.line) × (result.bytes ≡ 0) }
{
    let Asking {
        place,
        line,
        bytes: _,
    } = asking;
    Asking {
        place,
        line,
        bytes: 0,
    }
}

// Answers the lines of standard input that end, piece by piece. Each piece goes on from the state that the one before left.
fn take_input(
    stdin: Stdin,
    paths: u64,
    rising: &[u64],
    falling: &[u64],
    space: &mut [u8],
    out: &mut [u8],
) -> Taken
    requires { TreesReady paths rising.now falling.now × (length space.old ≤ piece_bytes) × (out_bytes ≤ length out.old) }
    ensures { InputTaken result }
{
    let mut asking = Asking {
        place: 1,
        line: Stated::Nothing,
        bytes: 0,
    };
    let mut so_far: u64 = 0;
    while so_far <= MOST_BYTES {
        let got = read_some(stdin, space);
        let n = got.bytes;
        if n == 0 {
            return Taken {
                asking,
                bytes: so_far,
                whole: !got.failed,
            };
        }
        let answered = put_answers(out, paths, rising, falling, asking, &space[..n]);
        let end = answered.bytes;
        let written = write_answers(&out[..end]);
        asking = none_waiting(answered);
        so_far += n as u64;
        if !written {
            break;
        }
    }
    Taken {
        asking,
        bytes: so_far,
        whole: false,
    }
}

// Answers standard input, also what stands after its last end of a line.
pub fn answer_input(
    stdin: Stdin,
    paths: u64,
    rising: &[u64],
    falling: &[u64],
    space: &mut [u8],
    out: &mut [u8],
) -> AnsweredInput
    requires { TreesReady paths rising.now falling.now × (length space.old ≤ piece_bytes) × (out_bytes ≤ length out.old) }
    ensures { InputAnswered result paths rising.now falling.now out.new }
{
    let taken = take_input(stdin, paths, rising, falling, space, out);
    if !taken.whole {
        return AnsweredInput {
            bytes: taken.bytes,
            end: 0,
            whole: false,
        };
    }
    let asking = taken.asking;
    let end = put_last(out, paths, rising, falling, asking);
    write_answers(&out[..end]);
    AnsweredInput {
        bytes: taken.bytes,
        end,
        whole: true,
    }
}
