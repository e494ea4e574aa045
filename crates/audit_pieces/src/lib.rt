// The audit with its test file in pieces, so that a file of any length is judged: a beginning, a call for each piece in file order, an end.
// Each piece but the last is a whole number of records, and all are handed the class of the beginning. A caller keeps the number of bytes so far and the number of the first refusal; once a
// piece is refused, no other is handed over.
#![tactic(auto)]

ghost use Rattle.std.specs.Prelude.{◌≡◌, length};
ghost use Rattle.model.specs.Base.{passes};
ghost use Rattle.model.specs.Store.{store_words_count};
ghost use Rattle.audit_judging.specs.FileJudging.{ended_of};
ghost use Rattle.audit_pieces.specs.Calls.{BegunTrue, PieceReady, PieceStaged, PieceTrue, EndTrue, end_stage};

use audit_block::inner::TakenRecords;
use audit_judging::inner::end_legal;
use audit_piece_steps::inner::{apply_piece, begin};
use model::{Refusal, STORE_WORDS, WORK_WORDS, known_class};
use model_refusals::refusal_number;
use netlist::inner::{Loaded, load_by_value};
use netlist::survey;
use store_words::inner::check_words;
use store_writing::inner::clear;

// What a piece answers: the number of its records, all taken; the number of those taken before the first that was refused, and why; or why no
// record was tried.
#[derive(Drop)]
pub enum PieceAnswer {
    Taken(usize),
    RecordRefused(usize, Refusal),
    Refused(Refusal),
}

// The beginning: lent memory, netlist and class. The store is emptied unread, unless the lent memory is refused.
pub fn audit_begin(
    netlist: &[u8],
    test_class: u32,
    store: &mut [u64],
    work: &[u64],
) -> Result<(), Refusal>
    ensures { BegunTrue result netlist.now test_class store.old store.new work.now }
{
    let begun = begin(netlist, test_class, store, work);
    begun.answer
}

// A piece: lent memory, netlist, class, store, then the test stage with its whole records in order. Refused with a number over 2 it leaves the
// store empty.
pub fn audit_piece(
    netlist: &[u8],
    piece: &[u8],
    test_class: u32,
    store: &mut [u64],
    work: &mut [u64],
) -> PieceAnswer
    ensures { PieceTrue result netlist.now test_class piece.now store.old store.new work.old work.new }
{
    if store.len() != STORE_WORDS {
        return PieceAnswer::Refused(Refusal::StoreLength);
    }
    if work.len() < WORK_WORDS {
        return PieceAnswer::Refused(Refusal::WorkLength);
    }
    let legal = load_by_value(netlist);
    match legal {
        Err(why) => {
            clear(store);
            PieceAnswer::Refused(why)
        }
        Ok(loaded) => {
            let known = known_class(test_class);
            if !known {
                clear(store);
                return PieceAnswer::Refused(Refusal::UnknownClass);
            }
            piece_on(netlist, loaded, piece, test_class, store, work)
        }
    }
}

// A piece on a legal netlist and a store that is not checked yet.
fn piece_on(
    netlist: &[u8],
    loaded: Loaded,
    piece: &[u8],
    class: u32,
    store: &mut [u64],
    work: &mut [u64],
) -> PieceAnswer
    requires { PieceReady netlist.now loaded store.old work.old }
    ensures { PieceStaged result netlist.now class piece.now store.old store.new work.old work.new }
{
    let checked = check_words(store, loaded.total);
    match checked {
        Err(why) => {
            clear(store);
            PieceAnswer::Refused(why)
        }
        Ok(()) => {
            let none = TakenRecords {
                taken: 0,
                answer: Ok(()),
            };
            let records = apply_piece(netlist, loaded, none, piece, class, store, work);
            let answer = records.answer;
            match answer {
                Ok(()) => PieceAnswer::Taken(records.taken),
                Err(why) => PieceAnswer::RecordRefused(records.taken, why),
            }
        }
    }
}

// The end, of a file of so many bytes whose first refusal has the number `first`, 0 if there is none. The order: the store's length, the netlist,
// the file's length, the first refusal, the store, the report. Refused for anything but the store's length it leaves the store empty, also
// where the first refusal is 1 or 2.
pub fn audit_end(
    netlist: &[u8],
    bytes: u64,
    first: u32,
    report: &[u8],
    store: &mut [u64],
) -> Result<(), u32>
    ensures { EndTrue result netlist.now bytes first report.now store.old store.new }
{
    if store.len() != STORE_WORDS {
        return Err(refusal_number(Refusal::StoreLength));
    }
    let ended = end_on(netlist, bytes, first, report, store);
    match ended {
        Ok(()) => Ok(()),
        Err(number) => {
            clear(store);
            Err(number)
        }
    }
}

// What the end answers, with a store of the right length.
fn end_on(netlist: &[u8], bytes: u64, first: u32, report: &[u8], store: &[u64]) -> Result<(), u32>
    requires { length store.now ≡ store_words_count }
    ensures { ended_of result ≡ passes (end_stage netlist.now bytes first report.now store.now) }
{
    let surveyed = survey(netlist);
    match surveyed {
        Err(why) => Err(refusal_number(why)),
        Ok(legal) => end_legal(legal.inputs, legal.total, bytes, first, report, store),
    }
}
