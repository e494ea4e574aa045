// The interval work of one edge, for our own crates.
ghost use Rattle.detection.specs.Cases.{Case};
ghost use Rattle.detection.specs.Walks.{Detects};
ghost use Rattle.single_intervals.specs.Edges.{EdgeAt, SomeEdgeAt};

use crate::nets::{input_runs, net_runs};
use netlist::inner::{Shape, outputs_part};
use run_shifted::inner::outputs::out_runs;

// Makes the runs of the detected path numbers, net by net, or answers nothing where the working runs are over 1,024. No work where no input makes
// the edge: then nothing is detected.
pub fn detected_runs(
    netlist: &[u8],
    positions: &[u16; 512],
    counts: &[u64; 512],
    masks: &[u8; 512],
    edges: u64,
    shape: Shape,
    words: &mut [u64],
) -> Option<usize>
    requires { SomeEdgeAt netlist.now positions.now counts.now masks.now edges shape words.old }
    ensures { (K : Case)
        → EdgeAt K netlist.now positions.now counts.now masks.now edges shape words.old
        → Detects K words.old words.new result }
{
    if edges == 0 {
        return Some(0);
    }
    let inputs = shape.inputs;
    let outputs = shape.outputs;
    let mut starts = [0u16; 513];
    let first = input_runs(edges, inputs, &mut starts, words);
    net_runs(
        netlist,
        positions,
        counts,
        masks,
        shape,
        &mut starts,
        words,
        first,
    )?;
    let part = outputs_part(netlist, outputs);
    out_runs(part, inputs, outputs, counts, &starts, words)
}
