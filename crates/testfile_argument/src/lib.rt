// The tests of the file that an argument names: their report, and the store that they leave. Where there is no report, standard error says why: the file
// can't be read whole, or the netlist, the class, the file or a record is refused.
#![tactic(auto)]

mod refusing;

ghost use Rattle.std.specs.Prelude.{◌≡◌, length};
ghost use Rattle.io.specs.Counts.{IsPrefixLen};
ghost use Rattle.model.specs.Calls.{work_words_count};
ghost use Rattle.testfile_argument.specs.NamedTests.{FileReported, TestsReported, TestsStored};

use model::{REPORT_BYTES, Refusal, WORK_WORDS};
use program_files::{close_file, file_name, open_file};
pub use refusing::{print_refused, refused_line};
use std::fs::File;
use std::io::Stderr;
use std::rt::{Env, Files};
use testfile_judged::{Reported, report_stream};

// What is told of the report of a test file: whether the program may judge by the file, the bytes that were read of it, and the length of its report, 0
// where there is none.
#[derive(Drop)]
pub struct ToldReport {
    pub whole: bool,
    pub bytes: u64,
    pub length: usize,
}

// What is told of the store that a test file leaves: the same of the file, and whether all of its tests were taken.
#[derive(Drop)]
pub struct ToldStore {
    pub whole: bool,
    pub bytes: u64,
    pub taken: bool,
}

// Zeros for working memory: a caller's proof sees the length alone.
fn no_work() -> [u64; WORK_WORDS]
    ensures { work_words_count ≡ length result }
{
    [0; WORK_WORDS]
}

// The report, in a class, of the test file of a name. `whole` says whether the program may judge by it: the file was read whole, or is missing and counts
// as empty.
pub fn report_file(
    rt: &impl Files<File = File>,
    stderr: Stderr,
    name: &[u8],
    netlist: &[u8],
    test_class: u32,
    truth: &mut [u8],
    store: &mut [u64],
) -> Reported
    ensures { FileReported result netlist.now test_class truth.old truth.new store.old store.new
        × IsPrefixLen result.length truth.new }
{
    let mut space = io::large_buffer();
    let mut work = no_work();
    let opened = open_file(rt, name);
    let reported = report_stream(
        &opened, stderr, netlist, test_class, truth, &mut space, store, &mut work,
    );
    let answer = reported.answer;
    Reported {
        answer,
        length: reported.length,
        bytes: reported.bytes,
        taken: reported.taken,
        whole: close_file(name, opened, reported.whole),
    }
}

// Says why there is no report.
fn say_refused(answer: Result<usize, Refusal>, taken: usize) {
    match answer {
        Err(why) => print_refused(why, taken),
        Ok(_) => {}
    }
}

// The report, in a class, of the test file that an argument names, tests.tp where there is no such argument: its bytes are at the start of `truth`.
pub fn report_of_tests<R: Env + Files<File = File>>(
    rt: &R,
    stderr: Stderr,
    place: usize,
    netlist: &[u8],
    test_class: u32,
    truth: &mut [u8],
    store: &mut [u64],
) -> ToldReport
    ensures { TestsReported result netlist.now test_class truth.old truth.new store.old store.new
        × IsPrefixLen result.length truth.new }
{
    let mut name = io::buffer();
    let n = file_name(rt, place, b"tests.tp", &mut name);
    let reported = report_file(rt, stderr, &name[..n], netlist, test_class, truth, store);
    if !reported.whole {
        return ToldReport {
            whole: false,
            bytes: reported.bytes,
            length: 0,
        };
    }
    let answer = reported.answer;
    say_refused(answer, reported.taken);
    ToldReport {
        whole: true,
        bytes: reported.bytes,
        length: reported.length,
    }
}

// The store that the same file leaves, and whether its tests were all taken.
pub fn store_of_tests<R: Env + Files<File = File>>(
    rt: &R,
    stderr: Stderr,
    place: usize,
    netlist: &[u8],
    test_class: u32,
    store: &mut [u64],
) -> ToldStore
    ensures { TestsStored result netlist.now test_class store.old store.new }
{
    let mut report = [0u8; REPORT_BYTES];
    let told = report_of_tests(rt, stderr, place, netlist, test_class, &mut report, store);
    ToldStore {
        whole: told.whole,
        bytes: told.bytes,
        taken: 0 < told.length,
    }
}
