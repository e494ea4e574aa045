// Everything that tests of a small block can show: all pairs of vectors applied to an emptied store.
#![tactic(auto)]

mod pairs;

ghost use Rattle.std.specs.Prelude.{◌≡◌, ◌≤◌};
ghost use Rattle.model.specs.Store.{empty_store};
ghost use Rattle.exhaust_pairs.specs.Exhaust.{most_inputs};
ghost use Rattle.audit_records.specs.FileRecords.{Ready};
ghost use Rattle.exhaust.specs.Answers.{ExhaustTrue, PairsApplied};

use audit_block::inner::fill_tables;
use block_activity::inner::layout::OFFSET_TABLE_SIZE;
use block_words::inner::layout::{GATE_TABLE_SIZE, LISTS_SIZE};
use exhaust_pairs::inner::MOST_INPUTS;
use model::{Refusal, STORE_WORDS, WORK_WORDS, known_class};
use netlist::inner::{Loaded, load_by_value};
use pairs::apply_all_pairs;
pub use store_words::inner::StoreTotals;
use store_words::inner::totals_of;
use store_writing::inner::clear;

// Applies every legal pair of vectors of a netlist of up to 6 inputs to a store, which is emptied unread. The store then holds every fault that a legal
// test of the class detects, and no other. Refused on the way with 50 or 51 the store is left empty; another refusal leaves it as found.
pub fn exhaust(
    netlist: &[u8],
    test_class: u32,
    store: &mut [u64],
    work: &mut [u64],
) -> Result<StoreTotals, Refusal>
    ensures { ExhaustTrue result netlist.now test_class store.old store.new work.old work.new }
{
    if store.len() != STORE_WORDS {
        return Err(Refusal::StoreLength);
    }
    if work.len() < WORK_WORDS {
        return Err(Refusal::WorkLength);
    }
    let loaded = load_by_value(netlist)?;
    let known = known_class(test_class);
    if !known {
        return Err(Refusal::UnknownClass);
    }
    if MOST_INPUTS < loaded.shape.inputs {
        return Err(Refusal::TooManyInputs);
    }
    clear(store);
    apply_pairs(netlist, loaded, test_class, store, work)
}

// All pairs on a legal netlist of up to 6 inputs, from an empty store: its tables are made once for all of them.
fn apply_pairs(
    netlist: &[u8],
    loaded: Loaded,
    class: u32,
    store: &mut [u64],
    work: &mut [u64],
) -> Result<StoreTotals, Refusal>
    requires ready { Ready netlist.now loaded store.old work.old }
    requires store_value { (store.old ≡ empty_store) × (loaded.shape.inputs ≤ most_inputs) }
    ensures { PairsApplied result netlist.now class store.new work.old work.new }
{
    let positions = loaded.positions;
    let counts = loaded.counts;
    let shape = loaded.shape;
    let mut table = [0u16; GATE_TABLE_SIZE];
    let mut offsets = [0u64; OFFSET_TABLE_SIZE];
    let numbers = fill_tables(
        netlist,
        &positions,
        &counts,
        shape,
        class,
        &mut table,
        &mut offsets,
    );
    let mut rising_lists = [0u32; LISTS_SIZE];
    let mut falling_lists = [0u32; LISTS_SIZE];
    apply_all_pairs(
        &table,
        &offsets,
        numbers,
        &mut rising_lists,
        &mut falling_lists,
        store,
        work,
    )?;
    let held = totals_of(store);
    Ok(StoreTotals {
        rising: held.rising,
        falling: held.falling,
    })
}
