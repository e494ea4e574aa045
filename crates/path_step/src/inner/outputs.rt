// The outputs' records: the output that a number ends at, and the counts before an output.
ghost use Rattle.std.specs.Prelude.{◌≡◌, ◌<◌, ◌≤◌, ◌^◌};
ghost use Rattle.model.specs.Base.{sum_of};
ghost use Rattle.path_step.specs.Picks.{RecordsOfOutputs, output_counts_in, pick_output_of};

use crate::inner::pins::Pick;
use netlist::inner::output_net;
use netlist_outputs::inner::output_paths;

// The output that path `number` ends at, with its net and the number there, of those with whose records the part begins.
pub fn pick_output(
    part: &[u8],
    outputs: usize,
    counts: &[u64; 512],
    inputs: usize,
    number: u64,
) -> Pick
    requires { (0 < outputs) × RecordsOfOutputs part.now outputs × (number ≤ sum_of (output_counts_in part.now outputs inputs counts.now)) }
    ensures { result ≡ pick_output_of part.now outputs inputs counts.now number }
{
    let mut place = 0;
    let mut rest = number;
    while place + 1 < outputs {
        let net = output_net(&part[4 * place..]);
        let count = output_paths(counts, inputs, net);
        if rest <= count {
            return Pick {
                pin: place,
                net,
                number: rest,
            };
        }
        rest -= count;
        place += 1;
    }
    let net = output_net(&part[4 * place..]);
    Pick {
        pin: place,
        net,
        number: rest,
    }
}

// The sum of the counts of the outputs before a place, with whose records the part begins.
pub fn outputs_before(part: &[u8], counts: &[u64; 512], inputs: usize, place: usize) -> u64
    requires { RecordsOfOutputs part.now place × (sum_of (output_counts_in part.now place inputs counts.now) ≤ 2 ^ 62) }
    ensures { result ≡ sum_of (output_counts_in part.now place inputs counts.now) }
{
    let mut total: u64 = 0;
    for before in 0..place {
        let net = output_net(&part[4 * before..]);
        total += output_paths(counts, inputs, net);
    }
    total
}
