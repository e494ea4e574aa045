// The longest untested paths of an edge, one after the other.
#![tactic(auto)]

mod downward;

ghost use Rattle.std.specs.Prelude.{◌≡◌};
ghost use Rattle.model.specs.Base.{value};
ghost use Rattle.model.specs.Netlist.{Netlist};
ghost use Rattle.model.specs.Read.{read_netlist};
ghost use Rattle.path_faults.specs.Answers.{model_edge};
ghost use Rattle.length_untested.specs.LongestPaths.{begin_gates, begin_from, longest_call, longest_of, longest_on_of, Prepared};

use crate::downward::longest_rows;
use length_ranks::inner::net_rows::fill_rows;
use length_search::inner::Search;
use model::{Refusal, STORE_WORDS};
use netlist::inner::{Shape, load};
use path_faults::{Edge, PathNo};
use store_words::inner::check_words;
use store_words::inner::parts::edge_runs;

// An untested path: its length and its number.
#[derive(Clone, Copy)]
pub struct UntestedPath {
    pub gates: usize,
    pub path: u64,
}

// Where a search begins.
fn begin_at(gates: usize, from: u64, total: u64) -> Search
    ensures { result ≡ record { gates = begin_gates gates; from = begin_from gates from; total = total } }
{
    if 63 < gates {
        return Search {
            gates: 63,
            from: 1,
            total,
        };
    }
    if from < 1 {
        return Search {
            gates,
            from: 1,
            total,
        };
    }
    Search { gates, from, total }
}

// The path, or that all from there on are tested, once the netlist's tables are made and the store is known to be sound.
fn longest_on(
    netlist: &[u8],
    positions: &[u16; 512],
    counts: &[u64; 512],
    shape: Shape,
    store: &[u64],
    edge: Edge,
    wanted: Search,
) -> Result<Option<UntestedPath>, Refusal>
    requires { Prepared netlist.now positions.now counts.now shape store.now wanted }
    ensures { (N : Netlist) → read_netlist netlist.now ≡ value N
        → longest_of result ≡ longest_on_of N store.now (model_edge edge) wanted.gates wanted.from }
{
    let mut rows = [[0u64; 64]; 512];
    fill_rows(netlist, positions, shape, &mut rows);
    let words = edge_runs(store, edge);
    longest_rows(netlist, positions, counts, &rows, shape, words, wanted)
}

// The first path of `gates` gates from number `from` on whose fault of an edge a store does not hold, else the first one of the greatest length below; none where all of those are held.
// From 63 gates and number 1 on it is the first of the longest untested paths; from its own length and the number after its own on, the next one.
pub fn longest_untested(
    netlist: &[u8],
    store: &[u64],
    edge: Edge,
    gates: usize,
    from: PathNo,
) -> Result<Option<UntestedPath>, Refusal>
    ensures { longest_of result ≡ longest_call netlist.now store.now (model_edge edge) gates from.0 }
{
    if store.len() != STORE_WORDS {
        return Err(Refusal::StoreLength);
    }
    let mut counts = [0u64; 512];
    let mut positions = [0u16; 512];
    let legal = load(netlist, &mut counts, &mut positions)?;
    check_words(store, legal.total)?;
    let wanted = begin_at(gates, from.0, legal.total);
    longest_on(
        netlist,
        &positions,
        &counts,
        legal.shape,
        store,
        edge,
        wanted,
    )
}
