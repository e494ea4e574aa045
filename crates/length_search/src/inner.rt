// Paths of a length looked for by the numbers of paths up to a number. Each caller proves what a function requires.
ghost use Rattle.std.specs.Prelude.{◌≡◌, ◌+◌, ◌≤◌, ◌<◌};
ghost use Rattle.model.specs.Base.{value};
ghost use Rattle.model.specs.Netlist.{Netlist};
ghost use Rattle.model.specs.Read.{read_netlist};
ghost use Rattle.length_rows.specs.Lengths.{lengths, of_length, paths_up_to};
ghost use Rattle.length_ranks.specs.NetRows.{Ranked};
ghost use Rattle.length_search.specs.Untested.{first_of, next_untested_of};
ghost use Rattle.length_search.specs.Tasks.{Somewhere, Looked, all_runs};

use length_ranks::inner::ranks::rank_row;
use netlist::inner::Shape;

// What is looked for: a path of so many gates, from a number on, of so many paths.
#[derive(Drop)]
pub struct Search {
    pub gates: usize,
    pub from: u64,
    pub total: u64,
}

// How many of the paths 1 to `number` have so many gates.
fn rank_of(
    netlist: &[u8],
    positions: &[u16; 512],
    counts: &[u64; 512],
    rows: &[[u64; 64]; 512],
    shape: Shape,
    gates: usize,
    number: u64,
) -> u64
    requires { Ranked netlist.now positions.now counts.now shape rows.now number × (gates < lengths) }
    ensures { (N : Netlist) → read_netlist netlist.now ≡ value N → result ≡ paths_up_to N gates number }
{
    let row = rank_row(netlist, positions, counts, rows, shape, number);
    row[gates]
}

// The first path over `low` of so many gates, where there is one up to `high`: between two numbers, of which the paths up to the lower one have none
// over `low` and those up to the higher one have one.
fn find_first(
    netlist: &[u8],
    positions: &[u16; 512],
    counts: &[u64; 512],
    rows: &[[u64; 64]; 512],
    shape: Shape,
    gates: usize,
    low: u64,
    high: u64,
) -> u64
    requires { Somewhere netlist.now positions.now counts.now shape rows.now gates low high }
    ensures { (1 ≤ result) × ((N : Netlist) → read_netlist netlist.now ≡ value N → result ≡ first_of (of_length N gates) (low + 1) high) }
{
    let before = rank_of(netlist, positions, counts, rows, shape, gates, low);
    let mut under = low;
    let mut over = high;
    while 1 < over - under {
        let middle = under + (over - under) / 2;
        let there = rank_of(netlist, positions, counts, rows, shape, gates, middle);
        if before < there {
            over = middle;
            continue;
        }
        under = middle;
    }
    over
}

// The first path of so many gates from `from` to `last`; 0 where there is none.
fn first_between(
    netlist: &[u8],
    positions: &[u16; 512],
    counts: &[u64; 512],
    rows: &[[u64; 64]; 512],
    shape: Shape,
    gates: usize,
    from: u64,
    last: u64,
) -> u64
    requires { Ranked netlist.now positions.now counts.now shape rows.now last × (gates < lengths) × (1 ≤ from) }
    ensures { (N : Netlist) → read_netlist netlist.now ≡ value N → result ≡ first_of (of_length N gates) from last }
{
    if last < from {
        return 0;
    }
    let before = rank_of(netlist, positions, counts, rows, shape, gates, from - 1);
    let there = rank_of(netlist, positions, counts, rows, shape, gates, last);
    if there <= before {
        return 0;
    }
    find_first(
        netlist,
        positions,
        counts,
        rows,
        shape,
        gates,
        from - 1,
        last,
    )
}

// The first path of so many gates from a number on that is in none of the runs; 0 where there is none. Two words for each run. The ranges between
// the runs are looked through one after the other.
pub fn next_untested(
    netlist: &[u8],
    positions: &[u16; 512],
    counts: &[u64; 512],
    rows: &[[u64; 64]; 512],
    shape: Shape,
    words: &[u64],
    wanted: Search,
) -> u64
    requires { Looked netlist.now positions.now counts.now shape rows.now wanted.total words.now wanted.gates wanted.from }
    ensures { (N : Netlist) → read_netlist netlist.now ≡ value N
        → result ≡ next_untested_of N (all_runs words.now) wanted.gates wanted.from }
{
    let gates = wanted.gates;
    let runs = words.len() / 2;
    let mut at = wanted.from;
    for i in 0..runs {
        let low = words[2 * i];
        let high = words[2 * i + 1];
        if high < at {
            continue;
        }
        let found = first_between(netlist, positions, counts, rows, shape, gates, at, low - 1);
        if found != 0 {
            return found;
        }
        at = high + 1;
    }
    let total = wanted.total;
    first_between(netlist, positions, counts, rows, shape, gates, at, total)
}
