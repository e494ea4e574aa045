// The faults that an edge's runs hold, by length: from the numbers of paths up to both ends of each run.
ghost use Rattle.std.specs.Prelude.{◌≡◌, ◌-◌, ◌≤◌};
ghost use Rattle.model.specs.Base.{value};
ghost use Rattle.model.specs.Netlist.{Netlist, path_total};
ghost use Rattle.model.specs.Read.{read_netlist};
ghost use Rattle.length_rows.specs.Lengths.{row, paths_up_to, held_up_to};
ghost use Rattle.length_rows.specs.RowSums.{added};
ghost use Rattle.length_ranks.specs.NetRows.{Ranked, Small};
ghost use Rattle.length_coverage.specs.LengthAnswers.{RunsRanked, in_words};

use length_ranks::inner::ranks::rank_row;
use length_rows::inner::add_difference;
use netlist::inner::Shape;

// Adds how many numbers of a run have each length.
fn add_run(
    netlist: &[u8],
    positions: &[u16; 512],
    counts: &[u64; 512],
    rows: &[[u64; 64]; 512],
    shape: Shape,
    low: u64,
    high: u64,
    sums: &mut [u64; 64],
)
    requires { Ranked netlist.now positions.now counts.now shape rows.now high × (1 ≤ low) × (low ≤ high) × Small sums.old }
    ensures { (N : Netlist) → read_netlist netlist.now ≡ value N
        → sums.new ≡ added sums.old (λ l. paths_up_to N l high - paths_up_to N l (low - 1)) }
{
    let upper = rank_row(netlist, positions, counts, rows, shape, high);
    let lower = rank_row(netlist, positions, counts, rows, shape, low - 1);
    add_difference(sums, &upper, &lower);
}

// How many numbers of the runs have each length. Two words for each run.
pub fn held_row(
    netlist: &[u8],
    positions: &[u16; 512],
    counts: &[u64; 512],
    rows: &[[u64; 64]; 512],
    shape: Shape,
    words: &[u64],
) -> [u64; 64]
    requires { RunsRanked netlist.now positions.now counts.now shape rows.now words.now }
    ensures { (N : Netlist) → read_netlist netlist.now ≡ value N
        → result ≡ row (λ l. held_up_to N (in_words words.now) l (path_total N)) }
{
    let mut sums = [0u64; 64];
    let runs = words.len() / 2;
    for i in 0..runs {
        add_run(
            netlist,
            positions,
            counts,
            rows,
            shape,
            words[2 * i],
            words[2 * i + 1],
            &mut sums,
        );
    }
    sums
}
