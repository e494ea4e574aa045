// The listing program: what each test record of a file adds on a netlist in a class, then the runs and the totals of the tested faults: `listing
// [CIRCUIT [TESTS [CLASS]]]`, without names those of the current folder; a missing file counts as empty, a missing class file as class 2. What it
// writes is made by `listing_head` and `listing_walk`, each part with a promise. Where the netlist or the class file can't be read whole it writes
// nothing, and where the test file can't, neither runs nor totals.
#![tactic(auto)]

ghost use Rattle.std.specs.Prelude.{◌≡◌, ◌≤◌, length};
ghost use Rattle.model.specs.Store.{store_words_count};
ghost use Rattle.model.specs.Calls.{work_words_count};
ghost use Rattle.netlist.specs.Tables.{SomeTables};
ghost use Rattle.listing_text.specs.StoreText.{out_bytes};

use listing_head::inner::put_head;
use listing_text::inner::OUT_BYTES;
use listing_walk::inner::{ListingFiles, list_file};
use model::{STORE_WORDS, WORK_WORDS};
use netlist::inner::Loaded;
use program_files::{
    close_file, file_name, has_argument, is_argument, load_argument, open_file, read_listed_class,
};
use program_sentences::{NETLIST_BYTES, STDERR_FILENO, STDOUT_FILENO, print, print_version};
use std::fs::File;
use std::io::{Stderr, Stdout};
use std::rt::{Env, Files};
use store_writing::inner::clear;

fn print_usage(fd: i32) {
    print(fd, b"usage: listing [CIRCUIT [TESTS [CLASS]]]\n");
    print(
        fd,
        b"Lists what each test adds on a circuit. Without names: circuit.nl, tests.tp, class.txt.\n",
    );
    print(
        fd,
        b"Without a class file tests are judged robustly, in class 2.\n",
    );
}

// Zeros for text, for a store and for working memory.
fn text_bytes() -> [u8; OUT_BYTES]
    ensures { out_bytes ≡ length result }
{
    [0; OUT_BYTES]
}

fn store_words() -> [u64; STORE_WORDS]
    ensures { store_words_count ≡ length result }
{
    [0; STORE_WORDS]
}

fn work_words() -> [u64; WORK_WORDS]
    ensures { work_words_count ≡ length result }
{
    [0; WORK_WORDS]
}

// The lines of the records of the test file that the second argument names, then those of the store that they leave.
fn list_tests<R: Env + Files<File = File>>(
    rt: &R,
    stdout: Stdout,
    stderr: Stderr,
    netlist: &[u8],
    tables: Loaded,
    class: u32,
    store: &mut [u64],
    work: &mut [u64],
    out: &mut [u8],
)
    requires some_tables { SomeTables netlist.now tables.positions tables.counts tables.shape }
    requires store_len { (length store.old ≡ store_words_count) × (work_words_count ≤ length work.old) × (out_bytes ≤ length out.old) }
{
    let mut name = io::buffer();
    let n = file_name(rt, 2, b"tests.tp", &mut name);
    let mut space = io::large_buffer();
    clear(store);
    let opened = open_file(rt, &name[..n]);
    let files = ListingFiles {
        from: &opened,
        to: stdout,
        progress: stderr,
    };
    let listed = list_file(files, netlist, tables, class, &mut space, store, work, out);
    let end = listed.end;
    if close_file(&name[..n], opened, listed.whole) {
        print(STDOUT_FILENO, &out[..end]);
    }
}

// The lines after the first one: a store and working memory are made for them.
fn list<R: Env + Files<File = File>>(
    rt: &R,
    stdout: Stdout,
    stderr: Stderr,
    netlist: &[u8],
    tables: Loaded,
    class: u32,
    out: &mut [u8],
)
    requires { SomeTables netlist.now tables.positions tables.counts tables.shape × (out_bytes ≤ length out.old) }
{
    let mut store = store_words();
    let mut work = work_words();
    list_tests(
        rt, stdout, stderr, netlist, tables, class, &mut store, &mut work, out,
    );
}

// The listing on a netlist in a class: the first line, and the lines after it where both pass.
fn list_circuit<R: Env + Files<File = File>>(
    rt: &R,
    stdout: Stdout,
    stderr: Stderr,
    netlist: &[u8],
    class: u32,
) {
    let mut out = text_bytes();
    let head = put_head(netlist, class, &mut out);
    let end = head.end;
    print(STDOUT_FILENO, &out[..end]);
    let passed = head.tables;
    match passed {
        Some(tables) => list(rt, stdout, stderr, netlist, tables, class, &mut out),
        None => {}
    }
}

fn main(rt: HostRuntime) {
    if is_argument(&rt, 1, b"--help") {
        print_usage(STDOUT_FILENO);
        return;
    }
    if is_argument(&rt, 1, b"--version") {
        print_version();
        return;
    }
    if has_argument(&rt, 4) {
        print_usage(STDERR_FILENO);
        return;
    }
    let mut bytes = [0u8; NETLIST_BYTES];
    let circuit = load_argument(&rt, 1, b"circuit.nl", &mut bytes);
    let length = circuit.bytes;
    let read = read_listed_class(&rt, 3);
    if circuit.whole && read.whole {
        list_circuit(&rt, rt.stdout(), rt.stderr(), &bytes[..length], read.class);
    }
}
