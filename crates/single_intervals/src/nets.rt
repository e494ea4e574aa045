// The runs of every net, one net after the other from the first word on.
ghost use Rattle.std.specs.Prelude.{◌≡◌, ◌+◌, ◌-◌, ◌*◌, ◌<◌, ◌≤◌, eqb, length, get_or};
ghost use Rattle.model.specs.Store.{max_runs};
ghost use Rattle.netlist.specs.Tables.{pin_count_in};
ghost use Rattle.run_lists.specs.Answers.{Adds};
ghost use Rattle.detection.specs.Cases.{Case};
ghost use Rattle.detection.specs.Walks.{input_runs_of, Kept};
ghost use Rattle.run_shifted.specs.RunsOfPlaces.{GateReady, gate_runs_of};
ghost use Rattle.single_intervals.specs.OpenRuns.{PinsReady, pin_runs_of, open_runs_of, count_if, run_count};
ghost use Rattle.single_intervals.specs.Nets.{Stand, NetsAt, SomeNetsAt, NetsMade};

use detection::inner::digit;
use netlist::inner::{Shape, gate_part, pin_net};
use record_bytes::inner::{wide, wide_word};
use run_shifted::inner::gates::gate_runs;

// Makes the runs of the inputs, and where each input's begin. The run 1 to 1 is written for each input, and counts for one that makes the edge: a branch
// would be mispredicted.
pub(crate) fn input_runs(
    edges: u64,
    inputs: usize,
    starts: &mut [u16; 513],
    words: &mut [u64],
) -> usize
    requires { (inputs ≤ 64) × (length starts.old ≡ 513) × (2 * max_runs ≤ length words.old) }
    ensures { Stand (input_runs_of edges) words.new starts.new inputs result × Kept words.old words.new }
{
    let mut start = 0;
    starts[0] = 0;
    for input in 0..inputs {
        words[2 * start] = 1;
        words[2 * start + 1] = 1;
        start += digit(edges, input as u64);
        starts[input + 1] = start as u16;
    }
    start
}

// How many runs a net has where `opened` is 1, and 0 where it is 0.
fn open_count(opened: usize, starts: &[u16; 513], net: usize) -> usize
    requires { (opened < 2) × (net < 512) × (get_or starts.now net 0 ≤ get_or starts.now (net + 1) 0) }
    ensures { (result ≡ count_if (eqb opened 1) (run_count starts.now net)) × (result < 65536) }
{
    let from = wide_word(starts[net]);
    let to = wide_word(starts[net + 1]);
    (to - from) * opened
}

// How many runs the net of a gate's pin has where the pin is open, and 0 where it is not.
fn pin_runs(part: &[u8], mask: u8, starts: &[u16; 513], pin: usize) -> usize
    requires { PinsReady part.now starts.now × (pin < pin_count_in part.now) }
    ensures { (result ≡ pin_runs_of part.now mask starts.now pin) × (result < 65536) }
{
    let net = pin_net(part, pin);
    open_count(digit(mask as u64, pin as u64), starts, net)
}

// How many runs the nets of a gate's open pins have together. Most gates have two pins: of these without a loop.
fn open_runs(part: &[u8], mask: u8, starts: &[u16; 513]) -> usize
    requires { PinsReady part.now starts.now }
    ensures { result ≡ open_runs_of part.now mask starts.now (pin_count_in part.now) }
{
    let pins = wide(part[3]);
    if pins == 2 {
        return pin_runs(part, mask, starts, 0) + pin_runs(part, mask, starts, 1);
    }
    let mut sum = 0;
    for pin in 0..pins {
        sum += pin_runs(part, mask, starts, pin);
    }
    sum
}

// Makes the runs of a gate's net. Most gates have none: one test passes over them, where a branch on each pin would be mispredicted.
fn add_gate(
    part: &[u8],
    mask: u8,
    counts: &[u64; 512],
    starts: &[u16; 513],
    words: &mut [u64],
    start: usize,
) -> Option<usize>
    requires { GateReady part.now mask counts.now starts.now words.old start }
    ensures { Adds words.old words.new start (max_runs - start)
        (gate_runs_of part.now mask counts.now starts.now words.old) result }
{
    if open_runs(part, mask, starts) == 0 {
        return Some(0);
    }
    gate_runs(part, mask, counts, starts, words, start)
}

// Makes the runs of the gates' nets after those of the inputs, and where each net's begin.
pub(crate) fn net_runs(
    netlist: &[u8],
    positions: &[u16; 512],
    counts: &[u64; 512],
    masks: &[u8; 512],
    shape: Shape,
    starts: &mut [u16; 513],
    words: &mut [u64],
    first: usize,
) -> Option<usize>
    requires { SomeNetsAt netlist.now positions.now counts.now masks.now shape words.old starts.old first }
    ensures { (K : Case)
        → NetsAt K netlist.now positions.now counts.now masks.now shape words.old starts.old first
        → NetsMade K words.old words.new starts.new result }
{
    let mut start = first;
    for net in shape.inputs..shape.nets {
        let part = gate_part(netlist, positions, net);
        start += add_gate(part, masks[net], counts, starts, words, start)?;
        starts[net + 1] = start as u16;
    }
    Some(start)
}
