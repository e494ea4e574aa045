// The test call: one record on a store.
#![tactic(auto)]

ghost use Rattle.std.specs.Prelude.{◌≡◌, ◌∷◌, ◌≤◌, length};
ghost use Rattle.model.specs.Base.{checks};
ghost use Rattle.model.specs.Netlist.{Netlist, path_total};
ghost use Rattle.model.specs.Read.{class_of, class_rule};
ghost use Rattle.model.specs.Store.{store_words_count};
ghost use Rattle.model.specs.Calls.{test_stage, work_words_count};
ghost use Rattle.netlist.specs.Tables.{CircuitTables};
ghost use Rattle.store_coverage.specs.Stage.{place_rules};
ghost use Rattle.store_coverage.specs.TestCall.{TestedIs};
ghost use Rattle.single_stage.specs.LegalStage.{LegalReady};
ghost use Rattle.single_call.specs.TestPromise.{CheckReady, TestTrue};
ghost use Rattle.model.specs.Returned.{answer_of};

use model::{Refusal, STORE_WORDS, WORK_WORDS, known_class};
use netlist::inner::{Shape, load};
use record_test::inner::check_record;
use single_stage::inner::apply_legal;
use store_coverage::TestCounts;
use store_coverage::inner::count_answer;
use store_words::inner::{check_words, totals_of};

// The places Test and Store for one record, in this order.
fn check_places(test: &[u8], inputs: usize, store: &[u64], paths: u64) -> Result<(), Refusal>
    requires { CheckReady inputs store.now paths }
    ensures { (N : Netlist) → inputs ≡ N.inputs → paths ≡ path_total N
        → answer_of result ≡ checks (place_rules N test.now store.now) }
{
    check_record(test, inputs)?;
    check_words(store, paths)
}

// A legal record on a sound store: the stage, with the faults that the store holds counted before and after it.
fn count_new(
    netlist: &[u8],
    positions: &[u16; 512],
    counts: &[u64; 512],
    shape: Shape,
    test: &[u8],
    class: u32,
    store: &mut [u64],
    work: &mut [u64],
) -> Result<TestCounts, Refusal>
    requires { LegalReady netlist.now positions.now counts.now shape test.now store.old work.old }
    ensures { (N : Netlist) → CircuitTables N netlist.now positions.now counts.now shape
        → TestedIs (test_stage N (class_of class) test.now store.old)
        store.old store.new work.old work.new result }
{
    let before = totals_of(store);
    let answer = apply_legal(netlist, positions, counts, shape, test, class, store, work);
    count_answer(before, answer, store)
}

// The class, then the places Test and Store for one record, on a store that is not checked yet.
fn check_call(
    test: &[u8],
    class: u32,
    inputs: usize,
    store: &[u64],
    paths: u64,
) -> Result<(), Refusal>
    requires { CheckReady inputs store.now paths }
    ensures { (N : Netlist) → inputs ≡ N.inputs → paths ≡ path_total N
        → answer_of result ≡ checks (class_rule class ∷ place_rules N test.now store.now) }
{
    if !known_class(class) {
        return Err(Refusal::UnknownClass);
    }
    check_places(test, inputs, store, paths)
}

// The test call on a store and working memory of the right lengths.
fn test_netlist(
    netlist: &[u8],
    test: &[u8],
    class: u32,
    store: &mut [u64],
    work: &mut [u64],
) -> Result<TestCounts, Refusal>
    requires { (length store.old ≡ store_words_count) × (work_words_count ≤ length work.old) }
    ensures { TestTrue result netlist.now class test.now store.old store.new work.old work.new }
{
    let mut counts = [0u64; 512];
    let mut positions = [0u16; 512];
    let legal = load(netlist, &mut counts, &mut positions)?;
    let shape = legal.shape;
    check_call(test, class, shape.inputs, store, legal.total)?;
    count_new(
        netlist, &positions, &counts, shape, test, class, store, work,
    )
}

// The test call, judged in class 1 (non-robust) or 2 (robust): for each edge the number of faults new to the store and the number then held.
pub fn apply_test(
    netlist: &[u8],
    test: &[u8],
    test_class: u32,
    store: &mut [u64],
    work: &mut [u64],
) -> Result<TestCounts, Refusal>
    ensures { TestTrue result netlist.now test_class test.now store.old store.new work.old work.new }
{
    if store.len() != STORE_WORDS {
        return Err(Refusal::StoreLength);
    }
    if work.len() < WORK_WORDS {
        return Err(Refusal::WorkLength);
    }
    test_netlist(netlist, test, test_class, store, work)
}
