// The audit of a report with its netlist and test file.
#![tactic(auto)]

ghost use Rattle.std.specs.Prelude.{◌≡◌};
ghost use Rattle.model.specs.Store.{empty_store};
ghost use Rattle.audit_records.specs.FileRecords.{Ready};
ghost use Rattle.audit.specs.Answers.{AuditTrue};
ghost use Rattle.audit.specs.TestFile.{FileAudited};

use audit_judging::inner::{judge, whole_length};
use audit_records::inner::apply_records;
use model::{Refusal, STORE_WORDS, WORK_WORDS, known_class};
use netlist::inner::{Loaded, load_by_value};
use record_test::inner::record_length;
use store_writing::inner::clear;

// Accepts a report if it is the one that the writer gives after the test calls with the records of a file, all in one class, from an empty store.
// The store is emptied unread; an audit that is refused after the lent memory's lengths leaves it empty.
pub fn audit(
    netlist: &[u8],
    tests: &[u8],
    report: &[u8],
    test_class: u32,
    store: &mut [u64],
    work: &mut [u64],
) -> Result<(), Refusal>
    ensures { AuditTrue result netlist.now test_class tests.now report.now
        store.old store.new work.old work.new }
{
    if store.len() != STORE_WORDS {
        return Err(Refusal::StoreLength);
    }
    if work.len() < WORK_WORDS {
        return Err(Refusal::WorkLength);
    }
    clear(store);
    let loaded = load_by_value(netlist)?;
    let known = known_class(test_class);
    if !known {
        return Err(Refusal::UnknownClass);
    }
    audit_file(netlist, loaded, tests, report, test_class, store, work)
}

// The audit of a file and a report on a legal netlist, from an empty store.
fn audit_file(
    netlist: &[u8],
    loaded: Loaded,
    tests: &[u8],
    report: &[u8],
    class: u32,
    store: &mut [u64],
    work: &mut [u64],
) -> Result<(), Refusal>
    requires ready { Ready netlist.now loaded store.old work.old }
    requires store_value { store.old ≡ empty_store }
    ensures { FileAudited result netlist.now class tests.now report.now store.new work.old work.new }
{
    let bytes = tests.len() as u64;
    let each = record_length(loaded.shape.inputs) as u64;
    if !whole_length(bytes, each) {
        return Err(Refusal::TestFileLength);
    }
    let places = loaded.positions;
    let positions = &places;
    let counts = &loaded.counts;
    let shape = loaded.shape;
    let taken = apply_records(netlist, positions, counts, shape, tests, class, store, work);
    taken.answer?;
    judge(report, bytes / each, loaded.total, store)
}
