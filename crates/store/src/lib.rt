// The calls on a store: emptying it, its totals, and whether it holds a fault.
#![tactic(auto)]

mod asking;

ghost use Rattle.std.specs.Prelude.{◌≡◌};
ghost use Rattle.model.specs.Calls.{totals_call, fault_call};
ghost use Rattle.store.specs.Answers.{EmptyTrue, totals_among};
ghost use Rattle.model.specs.Returned.{answer_of};

use crate::asking::{fault_on, totals_on};
use model::{Refusal, STORE_WORDS};
use netlist::survey;
use path_faults::FaultNo;
pub use store_words::inner::StoreTotals;
use store_writing::inner::clear;

// Empties a store, of any words.
pub fn empty(store: &mut [u64]) -> Result<(), Refusal>
    ensures { EmptyTrue result store.old store.new }
{
    if store.len() == STORE_WORDS {
        clear(store);
        return Ok(());
    }
    Err(Refusal::StoreLength)
}

// The number of faults of each edge that a store holds.
pub fn totals(netlist: &[u8], store: &[u64]) -> Result<StoreTotals, Refusal>
    ensures { totals_among result ≡ totals_call netlist.now store.now }
{
    if store.len() != STORE_WORDS {
        return Err(Refusal::StoreLength);
    }
    let legal = survey(netlist)?;
    totals_on(store, legal.total)
}

// Whether a store holds a fault.
pub fn fault_in_store(netlist: &[u8], store: &[u64], fault: FaultNo) -> Result<bool, Refusal>
    ensures { answer_of result ≡ fault_call netlist.now store.now fault.0 }
{
    if store.len() != STORE_WORDS {
        return Err(Refusal::StoreLength);
    }
    let legal = survey(netlist)?;
    fault_on(store, legal.total, fault)
}
