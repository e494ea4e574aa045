// Answers whether the tests of a file detect faults of a circuit, in a class: `ask [CIRCUIT [TESTS [CLASS]]]`, without names the files of the current
// folder; a missing file counts as empty, a missing class file as class 1. The tested faults are put into a tree for each edge; then fault numbers are
// read from standard input, one a line, and each is answered as soon as its line has come: held or not, and the nodes of the tree that were visited.
// Where the netlist, the class, the file or a record is refused it answers nothing, and says why on standard error; so where a file can't be read whole.
#![tactic(auto)]

ghost use Rattle.std.specs.Prelude.{◌≡◌, length};
ghost use Rattle.tree_words.specs.TreeLayout.{tree_words_count};
ghost use Rattle.ask_walk.specs.InputWalk.{piece_bytes};

use ask_walk::inner::{PIECE_BYTES, answer_input};
use model::STORE_WORDS;
use program_files::{has_argument, is_argument, load_argument, read_class};
use program_sentences::{NETLIST_BYTES, STDERR_FILENO, STDOUT_FILENO, print, print_version};
use std::fs::File;
use std::io::{Stderr, Stdin};
use std::rt::{Env, Files};
use testfile_argument::{print_refused, store_of_tests};
use tree_filling::fill_trees;
use tree_words::inner::TREE_WORDS;

fn print_usage(fd: i32) {
    print(fd, b"usage: ask [CIRCUIT [TESTS [CLASS]]]\n");
    print(
        fd,
        b"Reads fault numbers, one a line, and answers for each whether the tests detect it. Without names: circuit.nl, tests.tp, class.txt.\n",
    );
}

// Zeros for a tree, and for the questions that are read at a time.
fn no_tree() -> [u64; TREE_WORDS]
    ensures { tree_words_count ≡ length result }
{
    [0; TREE_WORDS]
}

fn no_questions() -> [u8; PIECE_BYTES]
    ensures { piece_bytes ≡ length result }
{
    [0; PIECE_BYTES]
}

// Answers the questions about the faults in a store.
fn answer_store(stdin: Stdin, netlist: &[u8], store: &[u64]) {
    let mut rising = no_tree();
    let mut falling = no_tree();
    let filled = fill_trees(netlist, store, &mut rising, &mut falling);
    match filled {
        Err(why) => print_refused(why, 0),
        Ok(paths) => {
            let mut space = no_questions();
            let mut out = io::large_buffer();
            answer_input(stdin, paths, &rising, &falling, &mut space, &mut out);
        }
    }
}

// The same about the faults that the test file detects, in a class, that the second argument names.
fn answer_tests<R: Env + Files<File = File>>(
    rt: &R,
    stdin: Stdin,
    stderr: Stderr,
    netlist: &[u8],
    class: u32,
) {
    let mut store = [0u64; STORE_WORDS];
    let tests = store_of_tests(rt, stderr, 2, netlist, class, &mut store);
    if tests.taken {
        answer_store(stdin, netlist, &store);
    }
}

fn main(rt: HostRuntime) {
    if is_argument(&rt, 1, b"--help") {
        print_usage(STDOUT_FILENO);
        return;
    }
    if is_argument(&rt, 1, b"--version") {
        print_version();
        return;
    }
    if has_argument(&rt, 4) {
        print_usage(STDERR_FILENO);
        return;
    }
    let mut bytes = [0u8; NETLIST_BYTES];
    let circuit = load_argument(&rt, 1, b"circuit.nl", &mut bytes);
    let length = circuit.bytes;
    let read = read_class(&rt, 3);
    if circuit.whole && read.whole {
        answer_tests(&rt, rt.stdin(), rt.stderr(), &bytes[..length], read.class);
    }
}
