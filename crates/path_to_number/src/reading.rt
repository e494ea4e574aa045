// The number of a path in words, from its output back to an input.
ghost use Rattle.std.specs.Prelude.{◌≡◌, ◌<◌};
ghost use Rattle.model.specs.Netlist.{Netlist};
ghost use Rattle.netlist.specs.Tables.{CircuitTables, SomeTables};
ghost use Rattle.path_to_number.specs.PathNumbers.{number_in, partial_number};

use netlist::inner::{Shape, gate_part, output_net, outputs_part, pin_net};
use path_step::inner::outputs::outputs_before;
use path_step::inner::pins::count_before;
use record_bytes::inner::{wide, wide_word};

// The number of the path in the words of a legal netlist, or 0 where they are none. A path has at least one pin, so at least three words.
pub(crate) fn read_path(
    netlist: &[u8],
    positions: &[u16; 512],
    counts: &[u64; 512],
    shape: Shape,
    words: &[u16],
) -> u64
    requires { SomeTables netlist.now positions.now counts.now shape }
    ensures { (N : Netlist) → CircuitTables N netlist.now positions.now counts.now shape
        → result ≡ number_in N words.now }
{
    if words.len() < 3 {
        return 0;
    }
    let pins = wide_word(words[1]);
    if words.len() != 2 + pins {
        return 0;
    }
    let place = wide_word(words[0]);
    if shape.outputs <= place {
        return 0;
    }
    let outputs = outputs_part(netlist, shape.outputs);
    let net = output_net(&outputs[4 * place..]);
    let rest = number_of(netlist, positions, counts, shape, net, &words[2..]);
    if rest == 0 {
        return 0;
    }
    rest + outputs_before(outputs, counts, shape.inputs, place)
}

// The number of the partial path of `net` with these pins, or 0 where they are none.
fn number_of(
    netlist: &[u8],
    positions: &[u16; 512],
    counts: &[u64; 512],
    shape: Shape,
    net: usize,
    pins: &[u16],
) -> u64
    requires { SomeTables netlist.now positions.now counts.now shape × (net < shape.nets) }
    ensures { (N : Netlist) → CircuitTables N netlist.now positions.now counts.now shape
        → result ≡ partial_number N net pins.now }
{
    if net < shape.inputs {
        if 0 < pins.len() {
            return 0;
        }
        return 1;
    }
    if pins.len() < 1 {
        return 0;
    }
    let part = gate_part(netlist, positions, net);
    let pin = wide_word(pins[0]);
    let many = wide(part[3]);
    if many <= pin {
        return 0;
    }
    let next = pin_net(part, pin);
    let rest = number_of(netlist, positions, counts, shape, next, &pins[1..]);
    if rest == 0 {
        return 0;
    }
    rest + count_before(part, counts, pin)
}
