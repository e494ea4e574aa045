// A test file of any length, read piece by piece, and audited or reported.
#![tactic(auto)]

mod writing;

ghost use Rattle.std.specs.Prelude.{◌≡◌, Err, true};
ghost use Rattle.io.specs.Counts.{IsPrefixLen};
ghost use Rattle.testfile_judged.specs.Streams.{StreamAudited, StreamReported};

use crate::writing::true_report;
use audit_piece_steps::inner::{begin, finish};
use model::Refusal;
use program_files::Opened;
use std::io::Stderr;
use testfile_walk::inner::walk_file;
pub use writing::Written;

// What the audit answers; the length of the true report; the bytes of the test file that were read, the records taken before the first refused
// one, and whether the file was read whole.
#[derive(Drop)]
pub struct Judged {
    pub answer: Result<(), Refusal>,
    pub length: usize,
    pub bytes: u64,
    pub taken: usize,
    pub whole: bool,
}

// What the writer answers, or the first refusal before it; the rest as for the audit.
#[derive(Drop)]
pub struct Reported {
    pub answer: Result<usize, Refusal>,
    pub length: usize,
    pub bytes: u64,
    pub taken: usize,
    pub whole: bool,
}

// What is told where the audit does not begin.
fn not_judged(why: Refusal) -> Judged
    ensures { result ≡ record { answer = Err why; length = 0; bytes = 0; taken = 0; whole = true } }
{
    Judged {
        answer: Err(why),
        length: 0,
        bytes: 0,
        taken: 0,
        whole: true,
    }
}

// The same for a report.
fn not_reported(why: Refusal) -> Reported
    ensures { result ≡ record { answer = Err why; length = 0; bytes = 0; taken = 0; whole = true } }
{
    Reported {
        answer: Err(why),
        length: 0,
        bytes: 0,
        taken: 0,
        whole: true,
    }
}

// The audit of a report, in a class, with a test file that was opened. Where all records are taken, `truth` then begins with the true report. The
// last piece that was read is left in the space.
pub fn audit_stream(
    opened: &Opened,
    stderr: Stderr,
    netlist: &[u8],
    report: &[u8],
    test_class: u32,
    truth: &mut [u8],
    space: &mut [u8],
    store: &mut [u64],
    work: &mut [u64],
) -> Judged
    ensures { StreamAudited result netlist.now report.now test_class truth.old truth.new
        space.new store.old store.new work.old work.new × IsPrefixLen result.length truth.new }
{
    let begun = begin(netlist, test_class, store, work);
    match begun.answer {
        Err(why) => not_judged(why),
        Ok(()) => match begun.tables {
            Err(why) => not_judged(why),
            Ok(loaded) => {
                let walk = walk_file(
                    opened, stderr, netlist, loaded, test_class, space, store, work,
                );
                let records = walk.records;
                let written = true_report(netlist, records, store, truth);
                let taken = records.answer;
                let answer = finish(netlist, loaded, taken, walk.bytes, report, store, work);
                Judged {
                    answer,
                    length: written.length,
                    bytes: walk.bytes,
                    taken: records.taken,
                    whole: walk.whole,
                }
            }
        },
    }
}

// The report, in a class, of a test file that was opened: the true report at the start of `truth`, or the first refusal.
pub fn report_stream(
    opened: &Opened,
    stderr: Stderr,
    netlist: &[u8],
    test_class: u32,
    truth: &mut [u8],
    space: &mut [u8],
    store: &mut [u64],
    work: &mut [u64],
) -> Reported
    ensures { StreamReported result netlist.now test_class truth.old truth.new
        space.new store.old store.new work.old work.new × IsPrefixLen result.length truth.new }
{
    let begun = begin(netlist, test_class, store, work);
    match begun.answer {
        Err(why) => not_reported(why),
        Ok(()) => match begun.tables {
            Err(why) => not_reported(why),
            Ok(loaded) => {
                let walk = walk_file(
                    opened, stderr, netlist, loaded, test_class, space, store, work,
                );
                let records = walk.records;
                let written = true_report(netlist, records, store, truth);
                let answer = written.answer;
                Reported {
                    answer,
                    length: written.length,
                    bytes: walk.bytes,
                    taken: records.taken,
                    whole: walk.whole,
                }
            }
        },
    }
}
