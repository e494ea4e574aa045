// The path of a number, found from the output back, each step at a lower net, and written into words.
ghost use Rattle.std.specs.Prelude.{◌≡◌, ◌+◌, ◌<◌, ◌≤◌, length, get_or};
ghost use Rattle.model.specs.Netlist.{Netlist};
ghost use Rattle.model.specs.Path.{path_of};
ghost use Rattle.model.specs.Calls.{path_written, path_words};
ghost use Rattle.netlist.specs.Tables.{CircuitTables, SomeTables};
ghost use Rattle.path_of_number.specs.Tasks.{Wanted, PinsWritten, blank};

use model::PATH_WORDS;
use netlist::inner::{Shape, gate_part, outputs_part};
use path_step::inner::outputs::pick_output;
use path_step::inner::pins::pick_pin;

// Writes the path of a number of a legal netlist, with zeros after it.
pub(crate) fn write_path(
    netlist: &[u8],
    positions: &[u16; 512],
    counts: &[u64; 512],
    shape: Shape,
    number: u64,
    path: &mut [u16],
)
    requires { Wanted netlist.now positions.now counts.now shape number × (path_words ≤ length path.old) }
    ensures { (N : Netlist) → CircuitTables N netlist.now positions.now counts.now shape
        → path.new ≡ path_written (path_of N number) path.old }
{
    let outputs = outputs_part(netlist, shape.outputs);
    let out = pick_output(outputs, shape.outputs, counts, shape.inputs, number);
    clear(path);
    path[0] = out.pin as u16;
    let end = descend(
        netlist, positions, counts, shape, out.net, out.number, path, 2,
    );
    path[1] = (end - 2) as u16;
}

// Zeros in the words that a path may fill.
fn clear(path: &mut [u16])
    requires { path_words ≤ length path.old }
    ensures { path.new ≡ blank path_words path.old }
{
    for i in 0..PATH_WORDS {
        path[i] = 0;
    }
}

// Writes the pins of partial path `number` of `net` from `at` on, and returns the place after them.
fn descend(
    netlist: &[u8],
    positions: &[u16; 512],
    counts: &[u64; 512],
    shape: Shape,
    net: usize,
    number: u64,
    path: &mut [u16],
    at: usize,
) -> usize
    requires { SomeTables netlist.now positions.now counts.now shape
        × (net < shape.nets) × (1 ≤ number) × (number ≤ get_or counts.now net 0) × (at + net ≤ length path.old) }
    ensures { (N : Netlist) → CircuitTables N netlist.now positions.now counts.now shape
        → PinsWritten N net number at result path.old path.new }
{
    if net < shape.inputs {
        return at;
    }
    let part = gate_part(netlist, positions, net);
    let pick = pick_pin(part, counts, number);
    let pin = pick.pin;
    path[at] = pin as u16;
    descend(
        netlist,
        positions,
        counts,
        shape,
        pick.net,
        pick.number,
        path,
        at + 1,
    )
}
