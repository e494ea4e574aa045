// The rows of a legal netlist and a sound store.
ghost use Rattle.std.specs.Prelude.{◌≡◌};
ghost use Rattle.model.specs.Base.{value};
ghost use Rattle.model.specs.Netlist.{Netlist};
ghost use Rattle.model.specs.Read.{read_netlist};
ghost use Rattle.length_coverage.specs.LengthAnswers.{Countable, CountableRows, lengths_of, lengths_on};

use crate::LengthRows;
use crate::inner::held::held_row;
use length_ranks::inner::net_rows::fill_rows;
use length_ranks::inner::ranks::rank_row;
use length_rows::inner::row_sum;
use model::Refusal;
use netlist::inner::Shape;
use path_faults::Edge;
use store_words::inner::parts::edge_runs;

// The rows, once the netlist's tables are made and the store is known to be sound.
pub(crate) fn count_rows(
    netlist: &[u8],
    positions: &[u16; 512],
    counts: &[u64; 512],
    shape: Shape,
    total: u64,
    store: &[u64],
) -> Result<LengthRows, Refusal>
    requires { Countable netlist.now positions.now counts.now shape total store.now }
    ensures { (N : Netlist) → read_netlist netlist.now ≡ value N → lengths_of result ≡ lengths_on N store.now }
{
    let mut rows = [[0u64; 64]; 512];
    fill_rows(netlist, positions, shape, &mut rows);
    rows_by_net(netlist, positions, counts, &rows, shape, total, store)
}

// The rows, from those of the nets. The paths of at most 63 gates are all paths, or one is too long.
fn rows_by_net(
    netlist: &[u8],
    positions: &[u16; 512],
    counts: &[u64; 512],
    rows: &[[u64; 64]; 512],
    shape: Shape,
    total: u64,
    store: &[u64],
) -> Result<LengthRows, Refusal>
    requires { CountableRows netlist.now positions.now counts.now shape total store.now rows.now }
    ensures { (N : Netlist) → read_netlist netlist.now ≡ value N → lengths_of result ≡ lengths_on N store.now }
{
    let paths = rank_row(netlist, positions, counts, rows, shape, total);
    let short = row_sum(&paths);
    if short != total {
        return Err(Refusal::PathTooLong);
    }
    let up = edge_runs(store, Edge::Rising);
    let rising = held_row(netlist, positions, counts, rows, shape, up);
    let down = edge_runs(store, Edge::Falling);
    let falling = held_row(netlist, positions, counts, rows, shape, down);
    Ok(LengthRows {
        rising: [paths, rising],
        falling: [paths, falling],
    })
}
