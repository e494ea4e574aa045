// Names looked up among those that the lines so far define. Each caller proves what a function requires.
ghost use Rattle.std.specs.Prelude.{◌≡◌, ◌&&◌, ◌≤◌, length};
ghost use Rattle.bench_lines.specs.LineReading.{part, NameIn};
ghost use Rattle.bench_names.specs.NameNets.{pair_net, key_net, NamesRoom, PinsJudged};

use bench_lines::inner::keys::{find_key, key_at};
use bench_lines::inner::statements::{PinPart, read_pin};

// The net of a key: its place among the inputs, or after them among the gates.
pub fn net_of_key(
    low: u64,
    high: u64,
    inputs: &[u64],
    input_count: usize,
    gates: &[u64],
    gate_count: usize,
) -> usize
    requires { NamesRoom inputs.now input_count gates.now gate_count }
    ensures { result ≡ pair_net inputs.now input_count gates.now gate_count low high }
{
    let place = find_key(inputs, input_count, low, high);
    if place < input_count {
        return place;
    }
    let after = find_key(gates, gate_count, low, high);
    input_count + after
}

// The net of a name.
pub fn net_at(
    line: &[u8],
    from: usize,
    to: usize,
    inputs: &[u64],
    input_count: usize,
    gates: &[u64],
    gate_count: usize,
) -> usize
    requires name_in { NameIn from to line.now }
    requires names_room { NamesRoom inputs.now input_count gates.now gate_count }
    ensures { result ≡ key_net inputs.now input_count gates.now gate_count
        (part from to line.now) }
{
    let key = key_at(line, from, to);
    net_of_key(key.low, key.high, inputs, input_count, gates, gate_count)
}

// Whether both are so.
fn both(a: bool, b: bool) -> bool
    ensures { result ≡ a && b }
{
    if a {
        return b;
    }
    false
}

// Whether the pins from a position on are all defined.
pub fn pins_known(
    line: &[u8],
    at: usize,
    inputs: &[u64],
    input_count: usize,
    gates: &[u64],
    gate_count: usize,
) -> bool
    requires at_in_bounds { at ≤ length line.now }
    requires names_room { NamesRoom inputs.now input_count gates.now gate_count }
    ensures { PinsJudged result at line.now inputs.now input_count gates.now
        gate_count }
{
    let nets = input_count + gate_count;
    let mut place = at;
    let mut more = true;
    let mut known = true;
    while more {
        let pin = read_pin(line, place);
        match pin {
            None => {
                return false;
            }
            Some(
                PinPart {
                    from,
                    to,
                    next,
                    more: again,
                },
            ) => {
                let net = net_at(line, from, to, inputs, input_count, gates, gate_count);
                known = both(known, net < nets);
                place = next;
                more = again;
            }
        }
    }
    known
}
