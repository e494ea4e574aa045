// The calls of the papers for C: each returns 0, or the number of the refusal; a refused call leaves the answer words as they were.
#![tactic(auto)]

pub mod number_calls;
pub mod tree_calls;

ghost use Rattle.std.specs.Prelude.{◌≡◌};
ghost use Rattle.model.specs.Calls.{survey_call, empty_call, emptied_store, totals_call, fault_call, path_to_number_call, number_to_path_answer, number_to_path_buffer};
ghost use Rattle.model.specs.Calls.{test_answer, test_store, WorkAfter};
ghost use Rattle.model.specs.Report.{writer_answer, writer_buffer, audit_answer, audit_store};
ghost use Rattle.audit_piece_steps.specs.Steps.{begin_answer, begin_store};
ghost use Rattle.load.specs.Calls.{load_answer, load_buffer};
ghost use Rattle.exhaust_pairs.specs.Exhaust.{exhaust_answer, exhaust_store, PairsWork};
ghost use Rattle.length_rows.specs.Lengths.{length_words, lengths_call};
ghost use Rattle.audit_pieces.specs.Calls.{piece_answer, piece_left, PieceWork, end_answer, end_store};
ghost use Rattle.bench_text.specs.Calls.{convert_answer, convert_buffer};
ghost use Rattle.viewer_places.specs.Viewer.{viewer_totals_call, viewer_runs_answer, viewer_runs_store, viewer_fault_call};
ghost use Rattle.c_answer_words.specs.Codes.{code_answer, Answered, survey_words, edge_words, count_words, number_word, bool_word};
ghost use Rattle.c_calls.specs.Answers.{all_taken, load_words};

use c_answer_words::inner::{code_of, count_code};
use path_faults::{FaultNo, PathNo};

// The survey of a netlist: I, G, U, T, then a count for each of 512 nets.
#[unsafe(no_mangle)]
pub extern "C" fn genduwal_survey(netlist: &[u8], answer: &mut [u64; 516]) -> u32
    ensures { Answered (survey_call netlist.now) survey_words result answer.old answer.new }
{
    let surveyed = netlist::survey(netlist);
    c_calls::survey_code(surveyed, answer)
}

// Empties a store, of any words.
#[unsafe(no_mangle)]
pub extern "C" fn genduwal_empty(store: &mut [u64]) -> u32
    ensures result_value { code_answer result ≡ empty_call store.old }
    ensures store_after { store.new ≡ emptied_store store.old }
{
    let emptied = store::empty(store);
    code_of(emptied)
}

// The test call, judged in class 1 (non-robust) or 2 (robust): for each edge the number of faults new to the store, then for each edge the number then held.
#[unsafe(no_mangle)]
pub extern "C" fn genduwal_test(
    netlist: &[u8],
    test: &[u8],
    test_class: u32,
    store: &mut [u64],
    work: &mut [u64],
    answer: &mut [u64; 4],
) -> u32
    ensures answered { Answered (test_answer netlist.now test_class test.now store.old work.old)
        count_words result answer.old answer.new }
    ensures store_after { store.new ≡ test_store netlist.now test_class test.now store.old work.old }
    ensures work_after { WorkAfter netlist.now test_class store.old work.old work.new }
{
    let tested = single_call::apply_test(netlist, test, test_class, store, work);
    c_store::test_code(tested, answer)
}

// Every legal pair of vectors of a netlist of up to 6 inputs, judged in a class, on the store, which is emptied unread: the number of rising, then of
// falling faults that legal tests detect.
#[unsafe(no_mangle)]
pub extern "C" fn genduwal_exhaust(
    netlist: &[u8],
    test_class: u32,
    store: &mut [u64],
    work: &mut [u64],
    answer: &mut [u64; 2],
) -> u32
    ensures answered { Answered (exhaust_answer netlist.now test_class store.old work.old)
        edge_words result answer.old answer.new }
    ensures store_after { store.new ≡ exhaust_store netlist.now test_class store.old work.old }
    ensures pairs_work { PairsWork netlist.now test_class store.old work.old work.new }
{
    let shown = exhaust::exhaust(netlist, test_class, store, work);
    c_store::totals_code(shown, answer)
}

// The number of rising, then of falling faults that a store holds.
#[unsafe(no_mangle)]
pub extern "C" fn genduwal_totals(netlist: &[u8], store: &[u64], answer: &mut [u64; 2]) -> u32
    ensures { Answered (totals_call netlist.now store.now) edge_words result answer.old answer.new }
{
    let totals = store::totals(netlist, store);
    c_store::totals_code(totals, answer)
}

// Coverage by length: for rising the number of paths of each length of 0 to 63 gates, then of their faults that a store holds; the same for falling.
#[unsafe(no_mangle)]
pub extern "C" fn genduwal_lengths(netlist: &[u8], store: &[u64], answer: &mut [u64; 256]) -> u32
    ensures { Answered (lengths_call netlist.now store.now) length_words result answer.old answer.new }
{
    let lengths = length_coverage::coverage_by_length(netlist, store);
    c_store::lengths_code(lengths, answer)
}

// Whether a store holds a fault: 1 if it does, else 0.
#[unsafe(no_mangle)]
pub extern "C" fn genduwal_holds(
    netlist: &[u8],
    store: &[u64],
    fault: u64,
    answer: &mut [u64; 1],
) -> u32
    ensures { Answered (fault_call netlist.now store.now fault) bool_word result answer.old answer.new }
{
    let held = store::fault_in_store(netlist, store, FaultNo(fault));
    c_store::held_code(held, answer)
}

// The number of rising, then of falling faults that a store holds, of paths that end at a viewer's outputs.
#[unsafe(no_mangle)]
pub extern "C" fn genduwal_viewer_totals(
    netlist: &[u8],
    store: &[u64],
    places: &[u16],
    answer: &mut [u64; 2],
) -> u32
    ensures { Answered (viewer_totals_call netlist.now store.now places.now) edge_words result answer.old answer.new }
{
    let totals = viewer::viewer_totals(netlist, store, places);
    c_store::totals_code(totals, answer)
}

// Whether a store holds a fault of one of a viewer's outputs: 1 if it does, else 0.
#[unsafe(no_mangle)]
pub extern "C" fn genduwal_viewer_holds(
    netlist: &[u8],
    store: &[u64],
    places: &[u16],
    fault: u64,
    answer: &mut [u64; 1],
) -> u32
    ensures { Answered (viewer_fault_call netlist.now store.now places.now fault) bool_word result answer.old answer.new }
{
    let held = viewer::viewer_holds(netlist, store, places, FaultNo(fault));
    c_store::held_code(held, answer)
}

// Writes the runs of a store that a viewer sees into a second one, of any words.
#[unsafe(no_mangle)]
pub extern "C" fn genduwal_viewer_runs(
    netlist: &[u8],
    store: &[u64],
    places: &[u16],
    view: &mut [u64],
) -> u32
    ensures result_value { code_answer result ≡ viewer_runs_answer netlist.now store.now view.old places.now }
    ensures view_after { view.new ≡ viewer_runs_store netlist.now store.now view.old places.now }
{
    let written = viewer::viewer_runs(netlist, store, places, view);
    code_of(written)
}

// The number of the path in the words.
#[unsafe(no_mangle)]
pub extern "C" fn genduwal_path_to_number(
    netlist: &[u8],
    path: &[u16],
    answer: &mut [u64; 1],
) -> u32
    ensures { Answered (path_to_number_call netlist.now path.now) number_word result answer.old answer.new }
{
    let number = path_to_number::path_to_number(netlist, path);
    c_calls::number_code(number, answer)
}

// Writes the path of a number into the first 513 words, with zeros after it.
#[unsafe(no_mangle)]
pub extern "C" fn genduwal_number_to_path(netlist: &[u8], number: u64, path: &mut [u16]) -> u32
    ensures result_value { code_answer result ≡ number_to_path_answer netlist.now number path.old }
    ensures path_after { path.new ≡ number_to_path_buffer netlist.now number path.old }
{
    let written = path_of_number::number_to_path(netlist, PathNo(number), path);
    code_of(written)
}

// Writes the report of a store, with the number of tests that it counts: the length of its record.
#[unsafe(no_mangle)]
pub extern "C" fn genduwal_write_report(
    netlist: &[u8],
    store: &[u64],
    report: &mut [u8],
    answer: &mut [u64; 1],
) -> u32
    ensures answered { Answered (writer_answer netlist.now store.now report.old) number_word result answer.old answer.new }
    ensures report_after { report.new ≡ writer_buffer netlist.now store.now report.old }
{
    let written = report::write_report(netlist, store, report);
    count_code(written, answer)
}

// Accepts a report if it is the one that the writer gives after the test calls with the records of a file, all in one class, from an empty store.
#[unsafe(no_mangle)]
pub extern "C" fn genduwal_audit(
    netlist: &[u8],
    tests: &[u8],
    report: &[u8],
    test_class: u32,
    store: &mut [u64],
    work: &mut [u64],
) -> u32
    ensures result_value { code_answer result ≡ audit_answer netlist.now test_class tests.now report.now store.old work.old }
    ensures store_after { store.new ≡ audit_store netlist.now test_class tests.now report.now store.old work.old }
    ensures work_after { WorkAfter netlist.now test_class store.old work.old work.new }
{
    let audited = audit::audit(netlist, tests, report, test_class, store, work);
    code_of(audited)
}

// The beginning of an audit whose test file comes in pieces: lent memory, netlist and class. The store is emptied unread.
#[unsafe(no_mangle)]
pub extern "C" fn genduwal_audit_begin(
    netlist: &[u8],
    test_class: u32,
    store: &mut [u64],
    work: &[u64],
) -> u32
    ensures result_value { code_answer result ≡ begin_answer netlist.now test_class store.old work.now }
    ensures store_after { store.new ≡ begin_store store.old work.now }
{
    let begun = audit_pieces::audit_begin(netlist, test_class, store, work);
    code_of(begun)
}

// A piece of the test file, judged in the class of the beginning: the number of its records, if all were taken.
#[unsafe(no_mangle)]
pub extern "C" fn genduwal_audit_piece(
    netlist: &[u8],
    piece: &[u8],
    test_class: u32,
    store: &mut [u64],
    work: &mut [u64],
    answer: &mut [u64; 1],
) -> u32
    ensures answered { Answered (all_taken (piece_answer netlist.now test_class piece.now
        store.old work.old)) number_word result answer.old answer.new }
    ensures store_after { store.new ≡ piece_left netlist.now test_class piece.now store.old work.old }
    ensures piece_work { PieceWork netlist.now test_class store.old work.old work.new }
{
    let taken = audit_pieces::audit_piece(netlist, piece, test_class, store, work);
    c_calls::piece_code(taken, answer)
}

// The end, of a file of so many bytes whose first refusal has the number `first`, 0 if there is none: whether the report is accepted.
#[unsafe(no_mangle)]
pub extern "C" fn genduwal_audit_end(
    netlist: &[u8],
    bytes: u64,
    first: u32,
    report: &[u8],
    store: &mut [u64],
) -> u32
    ensures result_value { code_answer result ≡ end_answer netlist.now bytes first report.now store.old }
    ensures store_after { store.new ≡ end_store netlist.now bytes first report.now store.old }
{
    let ended = audit_pieces::audit_end(netlist, bytes, first, report, store);
    match ended {
        Err(number) => number,
        Ok(()) => 0,
    }
}

// Converts .bench text to a netlist file in a lent buffer: the file's length.
#[unsafe(no_mangle)]
pub extern "C" fn genduwal_bench_to_netlist(
    text: &[u8],
    netlist: &mut [u8],
    answer: &mut [u64; 1],
) -> u32
    ensures answered { Answered (convert_answer text.now netlist.old) number_word result answer.old answer.new }
    ensures netlist_after { netlist.new ≡ convert_buffer text.now netlist.old }
{
    let converted = bench_text::bench_to_netlist(text, netlist);
    c_calls::bench_code(converted, answer)
}

// Writes the records of one vector of a load, drawn from a state: the state afterwards, and the bytes written.
#[unsafe(no_mangle)]
pub extern "C" fn genduwal_load(
    state: u32,
    inputs: u32,
    records: &mut [u8],
    answer: &mut [u64; 2],
) -> u32
    ensures answered { Answered (load_answer state inputs records.old) load_words result answer.old answer.new }
    ensures records_after { records.new ≡ load_buffer state inputs records.old }
{
    let written = load::write_load(state, inputs, records);
    c_calls::load_code(written, answer)
}
