// The lines of a path, whose words name the pin taken at each gate.
ghost use Rattle.std.specs.Prelude.{◌≡◌, ◌+◌, ◌*◌, ◌≤◌, ◌<◌, length};
ghost use Rattle.netlist.specs.Tables.{SomeCircuit};
ghost use Rattle.bench_net_names.specs.Table.{name_in_of};
ghost use Rattle.path_lines.specs.Walked.{GatesTold, PathTold};

use crate::nets::{put_gate, put_input, put_output};
use netlist::inner::{LegalNetlist, Shape, gate_part, load, output_net, outputs_part};
use record_bytes::inner::{wide, wide_word};

// The gates of a path from its output's net on, then its input. The nets fall, so that there are at most 511 gates. Words that name a pin that the
// gate has not are no path: they are left there.
fn put_gates(
    out: &mut [u8],
    at: usize,
    names: &[u64],
    netlist: &[u8],
    positions: &[u16; 512],
    shape: Shape,
    words: &[u16],
    output: usize,
) -> usize
    requires some_circuit { SomeCircuit netlist.now positions.now shape × (output < shape.nets) }
    requires words_len { (length words.now ≡ 513) × (at + 127 * 512 ≤ length out.old) }
    ensures { GatesTold out.old out.new at netlist.now (name_in_of names.now)
        words.now output result }
{
    let inputs = shape.inputs;
    let mut net = output;
    let mut place = at;
    let mut k = 0;
    while inputs <= net {
        let part = gate_part(netlist, positions, net);
        let pin = wide_word(words[2 + k]);
        if wide(part[3]) <= pin {
            return place;
        }
        place = put_gate(out, place, names, part, net, pin);
        net = netlist::inner::pin_net(part, pin);
        k += 1;
    }
    put_input(out, place, names, net)
}

// The output of a path, then its gates.
fn put_walk(
    out: &mut [u8],
    names: &[u64],
    netlist: &[u8],
    positions: &[u16; 512],
    shape: Shape,
    words: &[u16],
) -> usize
    requires some_circuit { SomeCircuit netlist.now positions.now shape }
    requires words_len { (length words.now ≡ 513) × (65536 ≤ length out.old) }
    ensures { PathTold out.old out.new netlist.now (name_in_of names.now) words.now result }
{
    let place = wide_word(words[0]);
    if shape.outputs <= place {
        return 0;
    }
    let outputs = outputs_part(netlist, shape.outputs);
    let net = output_net(&outputs[4 * place..]);
    let gates = put_output(out, names, place, net);
    put_gates(out, gates, names, netlist, positions, shape, words, net)
}

// The path in the words.
pub(crate) fn put_loaded(netlist: &[u8], names: &[u64], words: &[u16], out: &mut [u8]) -> usize
    requires { (length words.now ≡ 513) × (65536 ≤ length out.old) }
    ensures { PathTold out.old out.new netlist.now (name_in_of names.now) words.now result }
{
    let mut counts = [0u64; 512];
    let mut positions = [0u16; 512];
    let answer = load(netlist, &mut counts, &mut positions);
    match answer {
        Err(_) => 0,
        Ok(LegalNetlist { shape, total: _ }) => put_walk(
            out, names, netlist, &positions, shape, words,
        ),
    }
}
