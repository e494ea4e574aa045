// Coverage by length: for each edge and each length of 0 to 63 gates how many paths there are, and how many of their faults a store holds.
#![tactic(auto)]

mod counting;
pub mod inner;

ghost use Rattle.std.specs.Prelude.{◌≡◌};
ghost use Rattle.length_coverage.specs.LengthAnswers.{lengths_of};
ghost use Rattle.length_rows.specs.Lengths.{lengths_call};

use crate::counting::count_rows;
use model::{Refusal, STORE_WORDS};
use netlist::inner::load;
use store_words::inner::check_words;

// For each edge two rows: for each number of gates the paths, then the faults held.
#[derive(Clone, Copy)]
pub struct LengthRows {
    pub rising: [[u64; 64]; 2],
    pub falling: [[u64; 64]; 2],
}

// The rows of an edge.
pub fn rising_rows(rows: LengthRows) -> [[u64; 64]; 2]
    ensures { result ≡ rows.rising }
{
    rows.rising
}

pub fn falling_rows(rows: LengthRows) -> [[u64; 64]; 2]
    ensures { result ≡ rows.falling }
{
    rows.falling
}

// Coverage by length, or the reason for refusing it.
pub fn coverage_by_length(netlist: &[u8], store: &[u64]) -> Result<LengthRows, Refusal>
    ensures { lengths_of result ≡ lengths_call netlist.now store.now }
{
    if store.len() != STORE_WORDS {
        return Err(Refusal::StoreLength);
    }
    let mut counts = [0u64; 512];
    let mut positions = [0u16; 512];
    let legal = load(netlist, &mut counts, &mut positions)?;
    check_words(store, legal.total)?;
    count_rows(
        netlist,
        &positions,
        &counts,
        legal.shape,
        legal.total,
        store,
    )
}
