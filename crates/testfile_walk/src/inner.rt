// The test calls with the records of a test file, a piece of whole records at a time: a caller proves what a function requires.
ghost use Rattle.std.specs.Prelude.{◌≡◌};
ghost use Rattle.model.specs.Store.{empty_store};
ghost use Rattle.audit_records.specs.FileRecords.{Ready};
ghost use Rattle.testfile_walk.specs.Walked.{Walked, records_taken, file_taken};

use audit_block::inner::TakenRecords;
use audit_judging::inner::whole_length;
use audit_piece_steps::inner::apply_piece;
use model::{MAX_TESTS, Refusal};
use netlist::inner::Loaded;
use program_files::{Opened, at_end, end_progress, file_size, show_progress};
use record_test::inner::record_length;
use std::io::Stderr;
use store_writing::inner::clear;
use testfile_reading::inner::{full_piece, read_part, whole_part};

// The bytes of the longest record.
const RECORD_BYTES: u64 = 18;

// A file of more bytes has too many records.
const MAX_BYTES: u64 = RECORD_BYTES * MAX_TESTS;

// A test file as it was read: its bytes, what its records answer, and whether it was read whole.
#[derive(Drop)]
pub struct Walk {
    pub bytes: u64,
    pub records: TakenRecords,
    pub whole: bool,
}

// The test calls with the records of a file, all in one class, piece by piece. A piece that is not full is the last; the file was then read whole, unless a read
// failed, more bytes came or its size is another. A file of too many bytes is not read further: the rest changes nothing.
fn apply_pieces(
    opened: &Opened,
    stderr: Stderr,
    netlist: &[u8],
    loaded: Loaded,
    class: u32,
    space: &mut [u8],
    store: &mut [u64],
    work: &mut [u64],
) -> Walk
    requires { Ready netlist.now loaded store.old work.old × (store.old ≡ empty_store) }
    ensures { Walked records_taken result netlist.now loaded class space.new store.new work.old work.new }
{
    let bytes = record_length(loaded.shape.inputs);
    let full = whole_part(space.len(), bytes);
    let least = full_piece(full);
    let size = file_size(opened);
    let mut records = TakenRecords {
        taken: 0,
        answer: Ok(()),
    };
    let mut so_far: u64 = 0;
    while so_far <= MAX_BYTES {
        let n = read_part(opened, full, space);
        records = apply_piece(netlist, loaded, records, &space[..n], class, store, work);
        so_far += n as u64;
        if n < least {
            return Walk {
                bytes: so_far,
                records,
                whole: at_end(opened, size),
            };
        }
        show_progress(stderr, records.taken as u64);
    }
    Walk {
        bytes: so_far,
        records,
        whole: true,
    }
}

// The same, and the length of the whole file: 33 comes before a record's refusal and leaves the store empty, too.
pub fn walk_file(
    opened: &Opened,
    stderr: Stderr,
    netlist: &[u8],
    loaded: Loaded,
    class: u32,
    space: &mut [u8],
    store: &mut [u64],
    work: &mut [u64],
) -> Walk
    requires { Ready netlist.now loaded store.old work.old × (store.old ≡ empty_store) }
    ensures { Walked file_taken result netlist.now loaded class space.new store.new work.old work.new }
{
    let walk = apply_pieces(opened, stderr, netlist, loaded, class, space, store, work);
    end_progress(stderr);
    let each = record_length(loaded.shape.inputs) as u64;
    if whole_length(walk.bytes, each) {
        return walk;
    }
    clear(store);
    let records = TakenRecords {
        taken: walk.records.taken,
        answer: Err(Refusal::TestFileLength),
    };
    Walk {
        bytes: walk.bytes,
        records,
        whole: walk.whole,
    }
}
