// The paths that end at an output have numbers one after the other: a range for each of a viewer's places, neighbours joined.
ghost use Rattle.std.specs.Prelude.{◌≡◌, ◌+◌, ◌*◌, ◌≤◌, ◌^◌, length};
ghost use Rattle.model.specs.Base.{value, sum_of};
ghost use Rattle.model.specs.Netlist.{Netlist, path_total};
ghost use Rattle.model.specs.Runs.{runs_among};
ghost use Rattle.model.specs.Read.{read_netlist};
ghost use Rattle.path_step.specs.Picks.{RecordsOfOutputs, output_counts_in};
ghost use Rattle.run_lists.specs.RunLists.{add_runs, runs_in_words};
ghost use Rattle.run_lists.specs.Answers.{Room, Adds};
ghost use Rattle.viewer_places.specs.Viewer.{seen};
ghost use Rattle.viewer_ranges.specs.Ranges.{most_places, range, Viewable};

use netlist::inner::{Shape, outputs_part};
use path_step::inner::outputs::outputs_before;
use record_bytes::inner::wide_word;
use run_union::inner::append;

// The most places of a viewer, one for each output, and the most ranges.
pub const MOST_PLACES: usize = 64;

// Adds the numbers of the paths that end at the output of a place. The part begins with the outputs' records.
fn add_range(
    part: &[u8],
    counts: &[u64; 512],
    inputs: usize,
    place: usize,
    words: &mut [u64],
    count: usize,
) -> Option<usize>
    requires records_of_outputs { RecordsOfOutputs part.now (place + 1) × (sum_of (output_counts_in part.now (place + 1) inputs counts.now) ≤ 2 ^ 62) }
    requires room { Room words.old 0 count most_places }
    ensures { Adds words.old words.new 0 most_places (add_runs (runs_in_words words.old 0 count)
        (range (sum_of (output_counts_in part.now place inputs counts.now))
        (sum_of (output_counts_in part.now (place + 1) inputs counts.now)))) result }
{
    let before = outputs_before(part, counts, inputs, place);
    let last = outputs_before(part, counts, inputs, place + 1);
    if last <= before {
        return Some(count);
    }
    append(words, 0, count, MOST_PLACES, before + 1, last)
}

// Puts the runs of the path numbers that a viewer sees into words, two for each, and returns their number.
pub fn view_ranges(
    netlist: &[u8],
    counts: &[u64; 512],
    shape: Shape,
    places: &[u16],
    words: &mut [u64],
) -> usize
    requires { Viewable netlist.now counts.now shape places.now × (2 * most_places ≤ length words.old) }
    ensures { ((N : Netlist) → read_netlist netlist.now ≡ value N
        → runs_in_words words.new 0 result ≡ runs_among (seen N places.now) (path_total N)) × (result ≤ most_places) }
{
    let part = outputs_part(netlist, shape.outputs);
    let mut count = 0;
    for i in 0..places.len() {
        let place = wide_word(places[i]);
        let Some(more) = add_range(part, counts, shape.inputs, place, words, count) else {
            return count;
        };
        count = more;
    }
    count
}
