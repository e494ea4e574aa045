// The runs of a gate's net, from those of its pins' nets.
ghost use Rattle.std.specs.Prelude.{◌-◌};
ghost use Rattle.model.specs.Store.{max_runs};
ghost use Rattle.run_lists.specs.Answers.{Adds};
ghost use Rattle.run_shifted.specs.RunsOfPlaces.{GateReady, gate_runs_of};

use crate::inner::add_net;
use detection::inner::digit;
use model::MAX_RUNS;
use netlist::inner::pin_net;
use record_bytes::inner::wide;

// Makes the runs of a gate's net, pin by pin.
pub fn gate_runs(
    part: &[u8],
    mask: u8,
    counts: &[u64; 512],
    starts: &[u16; 513],
    words: &mut [u64],
    start: usize,
) -> Option<usize>
    requires { GateReady part.now mask counts.now starts.now words.old start }
    ensures { Adds words.old words.new start (max_runs - start)
        (gate_runs_of part.now mask counts.now starts.now words.old) result }
{
    let pins = wide(part[3]);
    let mut count = 0;
    let mut offset: u64 = 0;
    for pin in 0..pins {
        let net = pin_net(part, pin);
        count = add_net(
            digit(mask as u64, pin as u64),
            starts,
            net,
            words,
            start,
            count,
            MAX_RUNS - start,
            offset,
        )?;
        offset += counts[net];
    }
    Some(count)
}
