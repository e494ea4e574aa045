// The runs of a store as trees, one for each edge.
#![tactic(auto)]

mod filling;

ghost use Rattle.tree_filling.specs.TreesOfStore.{FillTrue};

use crate::filling::fill_both;
use model::{Refusal, STORE_WORDS};
use netlist::survey;
use tree_words::inner::TREE_WORDS;

// Fills a tree for each edge with the runs of a store.
pub fn fill_trees(
    netlist: &[u8],
    store: &[u64],
    rising: &mut [u64],
    falling: &mut [u64],
) -> Result<u64, Refusal>
    ensures { FillTrue result netlist.now store.now rising.old rising.new
        falling.old falling.new }
{
    if store.len() != STORE_WORDS {
        return Err(Refusal::StoreLength);
    }
    if rising.len() < TREE_WORDS {
        return Err(Refusal::TreeLength);
    }
    if falling.len() < TREE_WORDS {
        return Err(Refusal::TreeLength);
    }
    let legal = survey(netlist)?;
    fill_both(store, legal.total, rising, falling)
}
