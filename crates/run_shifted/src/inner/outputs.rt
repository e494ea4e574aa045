// The runs of the detected path numbers, from those of the outputs' nets.
ghost use Rattle.std.specs.Prelude.{◌≡◌, ◌<◌, eqb, leb};
ghost use Rattle.model.specs.Store.{max_runs};
ghost use Rattle.run_lists.specs.Answers.{Adds};
ghost use Rattle.run_shifted.specs.RunsOfPlaces.{OutputsReady, output_runs};

use crate::inner::add_net;
use model::MAX_RUNS;
use netlist::inner::output_net;
use netlist_outputs::inner::output_paths;

// 1 where a net is a gate's. An output at an input's net, a wire without a gate, has no path and adds no run.
fn at_gate(inputs: usize, net: usize) -> usize
    ensures { (result < 2) × (eqb result 1 ≡ leb inputs net) }
{
    if net < inputs {
        return 0;
    }
    1
}

// Makes the runs of the detected path numbers, output by output, in the second quarter of the words.
pub fn out_runs(
    part: &[u8],
    inputs: usize,
    outputs: usize,
    counts: &[u64; 512],
    starts: &[u16; 513],
    words: &mut [u64],
) -> Option<usize>
    requires { OutputsReady part.now inputs outputs counts.now starts.now words.old }
    ensures { Adds words.old words.new max_runs max_runs
        (output_runs part.now inputs outputs counts.now starts.now words.old) result }
{
    let mut count = 0;
    let mut offset: u64 = 0;
    for place in 0..outputs {
        let net = output_net(&part[4 * place..]);
        count = add_net(
            at_gate(inputs, net),
            starts,
            net,
            words,
            MAX_RUNS,
            count,
            MAX_RUNS,
            offset,
        )?;
        offset += output_paths(counts, inputs, net);
    }
    Some(count)
}
