// The three steps, for our own crates: each caller proves what a function requires.
ghost use Rattle.std.specs.Prelude.{◌+◌, ◌^◌, ◌<◌, List, ℕ, length};
ghost use Rattle.netlist.specs.Answers.{LoadedTrue};
ghost use Rattle.audit_piece_steps.specs.Steps.{BeginTrue, PieceTaken, Ended};
ghost use Rattle.audit_records.specs.FileRecords.{Ready};

use audit_block::inner::TakenRecords;
use audit_judging::inner::{judge, whole_length};
use audit_records::inner::apply_records;
use model::{Refusal, STORE_WORDS, WORK_WORDS, known_class};
use netlist::inner::{Loaded, load_by_value};
use record_test::inner::record_length;
use store_writing::inner::clear;

// The answer, and what loading the netlist answers, whatever the answer is: its tables, or its own refusal.
#[derive(Drop)]
pub struct Begun {
    pub answer: Result<(), Refusal>,
    pub tables: Result<Loaded, Refusal>,
}

// The answer, with a netlist that was loaded. It is lent: a copy of the tables for each return would take the stack of all.
fn begin_loaded(
    tables: &Result<Loaded, Refusal>,
    class: u32,
    store: &mut [u64],
    work: &[u64],
) -> Result<(), Refusal>
    ensures { (netlist : List ℕ) → LoadedTrue tables.now netlist
        → BeginTrue (record { answer = result; tables = tables.now }) netlist class store.old store.new work.now }
{
    if store.len() != STORE_WORDS {
        return Err(Refusal::StoreLength);
    }
    if work.len() < WORK_WORDS {
        return Err(Refusal::WorkLength);
    }
    clear(store);
    match tables {
        Err(why) => Err(*why),
        Ok(_) => {
            let known = known_class(class);
            if !known {
                return Err(Refusal::UnknownClass);
            }
            Ok(())
        }
    }
}

// Lent memory, netlist and class. The store is emptied unread, unless the lent memory is refused.
pub fn begin(netlist: &[u8], class: u32, store: &mut [u64], work: &[u64]) -> Begun
    ensures { BeginTrue result netlist.now class store.old store.new work.now }
{
    let tables = load_by_value(netlist);
    let answer = begin_loaded(&tables, class, store, work);
    Begun { answer, tables }
}

// The test stage with the whole records of a piece in order, judged in a class; after a refused record no other is tried. A refused record empties the store.
pub fn apply_piece(
    netlist: &[u8],
    loaded: Loaded,
    before: TakenRecords,
    piece: &[u8],
    class: u32,
    store: &mut [u64],
    work: &mut [u64],
) -> TakenRecords
    requires ready { Ready netlist.now loaded store.old work.old }
    requires piece_bound { before.taken + length piece.now < 2 ^ 64 }
    ensures { PieceTaken result netlist.now loaded class before piece.now store.old store.new work.old work.new }
{
    let places = loaded.positions;
    let positions = &places;
    let counts = &loaded.counts;
    let shape = loaded.shape;
    let answer = before.answer;
    match answer {
        Err(why) => TakenRecords {
            taken: before.taken,
            answer: Err(why),
        },
        Ok(()) => {
            let more = apply_records(netlist, positions, counts, shape, piece, class, store, work);
            let taken = before.taken + more.taken;
            let said = more.answer;
            TakenRecords {
                taken,
                answer: said,
            }
        }
    }
}

// The report of a file of so many bytes, whose records answered so. The file's length comes first; a refusal leaves the store empty.
pub fn finish(
    netlist: &[u8],
    loaded: Loaded,
    taken: Result<(), Refusal>,
    bytes: u64,
    report: &[u8],
    store: &mut [u64],
    work: &[u64],
) -> Result<(), Refusal>
    requires { Ready netlist.now loaded store.old work.now }
    ensures { Ended result netlist.now taken bytes report.now store.old store.new }
{
    let each = record_length(loaded.shape.inputs) as u64;
    if !whole_length(bytes, each) {
        clear(store);
        return Err(Refusal::TestFileLength);
    }
    match taken {
        Err(why) => {
            clear(store);
            Err(why)
        }
        Ok(()) => judge(report, bytes / each, loaded.total, store),
    }
}
