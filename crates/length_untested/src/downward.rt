// The lengths from the greatest down: those that have an untested path, by the rows of paths and of faults held.
ghost use Rattle.std.specs.Prelude.{◌≡◌, ◌∷◌, []};
ghost use Rattle.model.specs.Base.{value, ◌then◌, checks};
ghost use Rattle.model.specs.Netlist.{Netlist};
ghost use Rattle.model.specs.Read.{read_netlist};
ghost use Rattle.length_rows.specs.Lengths.{length_rule, row, paths_up_to};
ghost use Rattle.length_search.specs.Untested.{longest_from};
ghost use Rattle.length_search.specs.Tasks.{all_runs};
ghost use Rattle.length_untested.specs.LongestPaths.{untested_of, longest_of, longest_in, Ready};

use crate::UntestedPath;
use length_coverage::inner::held::held_row;
use length_ranks::inner::ranks::rank_row;
use length_rows::inner::row_sum;
use length_search::inner::{Search, next_untested};
use model::Refusal;
use netlist::inner::Shape;

// The path, from the row of all paths: a length of which all paths are held is passed over.
fn search_down(
    netlist: &[u8],
    positions: &[u16; 512],
    counts: &[u64; 512],
    rows: &[[u64; 64]; 512],
    shape: Shape,
    words: &[u64],
    wanted: Search,
    paths: &[u64; 64],
) -> Option<UntestedPath>
    requires { Ready netlist.now positions.now counts.now shape rows.now words.now wanted
        × ((N : Netlist) → read_netlist netlist.now ≡ value N → paths.now ≡ row (λ l. paths_up_to N l wanted.total)) }
    ensures { (N : Netlist) → read_netlist netlist.now ≡ value N
        → untested_of result ≡ longest_from N (all_runs words.now) wanted.gates wanted.from }
{
    let held = held_row(netlist, positions, counts, rows, shape, words);
    let total = wanted.total;
    let mut from = wanted.from;
    for gates in (1..=wanted.gates).rev() {
        if paths[gates] == held[gates] {
            from = 1;
            continue;
        }
        let here = Search { gates, from, total };
        let path = next_untested(netlist, positions, counts, rows, shape, words, here);
        if path != 0 {
            return Some(UntestedPath { gates, path });
        }
        from = 1;
    }
    None
}

// The path, from the rows of the nets. The paths of at most 63 gates are all paths, or one is too long.
pub(crate) fn longest_rows(
    netlist: &[u8],
    positions: &[u16; 512],
    counts: &[u64; 512],
    rows: &[[u64; 64]; 512],
    shape: Shape,
    words: &[u64],
    wanted: Search,
) -> Result<Option<UntestedPath>, Refusal>
    requires { Ready netlist.now positions.now counts.now shape rows.now words.now wanted }
    ensures { (N : Netlist) → read_netlist netlist.now ≡ value N
        → longest_of result ≡ longest_in N (all_runs words.now) wanted.gates wanted.from }
{
    let paths = rank_row(netlist, positions, counts, rows, shape, wanted.total);
    let short = row_sum(&paths);
    if short != wanted.total {
        return Err(Refusal::PathTooLong);
    }
    Ok(search_down(
        netlist, positions, counts, rows, shape, words, wanted, &paths,
    ))
}
