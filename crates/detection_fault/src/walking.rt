// The path of a number walked from its output back, as long as its pins are open.
ghost use Rattle.std.specs.Prelude.{◌≡◌, ◌≤◌, ◌<◌, get_or};
ghost use Rattle.model.specs.Base.{bit};
ghost use Rattle.model.specs.Netlist.{Netlist};
ghost use Rattle.model.specs.Path.{path_of};
ghost use Rattle.model.specs.Detect.{detects_number};
ghost use Rattle.model.specs.Read.{class_of, test_of};
ghost use Rattle.path_faults.specs.Answers.{model_edge};
ghost use Rattle.netlist.specs.Tables.{CircuitTables, SomeTables};
ghost use Rattle.path_of_number.specs.Tasks.{Wanted};
ghost use Rattle.detection_fault.specs.OpenPaths.{open_at, open_number, moved_by, LegalAsked};

use netlist::inner::{Shape, gate_part, outputs_part};
use path_faults::Edge;
use path_step::inner::outputs::pick_output;
use path_step::inner::pins::pick_pin;
use record_bytes::inner::wide;
use record_test::inner::{InputEdges, edges_of, read_vectors};
use single_simulation::inner::open_pins::open_masks;

// Whether a bit of a word is 1.
fn bit_of(word: u64, place: u64) -> bool
    requires { place < 64 }
    ensures { result ≡ bit word place }
{
    (word >> place) & 1 == 1
}

// Whether all pins of partial path `number` of `net` are open, and its input is one of those that make the edge.
fn open_from(
    netlist: &[u8],
    positions: &[u16; 512],
    counts: &[u64; 512],
    shape: Shape,
    masks: &[u8; 512],
    moved: u64,
    net: usize,
    number: u64,
) -> bool
    requires { SomeTables netlist.now positions.now counts.now shape
        × (net < shape.nets) × (1 ≤ number) × (number ≤ get_or counts.now net 0) }
    ensures { (N : Netlist) → CircuitTables N netlist.now positions.now counts.now shape
        → result ≡ open_at N masks.now moved net number }
{
    let inputs = shape.inputs;
    let mut at = net;
    let mut rest = number;
    while inputs <= at {
        let part = gate_part(netlist, positions, at);
        let pick = pick_pin(part, counts, rest);
        let mask = wide(masks[at]);
        if !bit_of(mask as u64, pick.pin as u64) {
            return false;
        }
        at = pick.net;
        rest = pick.number;
    }
    bit_of(moved, at as u64)
}

// The same of path `number`.
fn open_path(
    netlist: &[u8],
    positions: &[u16; 512],
    counts: &[u64; 512],
    shape: Shape,
    masks: &[u8; 512],
    moved: u64,
    number: u64,
) -> bool
    requires { Wanted netlist.now positions.now counts.now shape number }
    ensures { (N : Netlist) → CircuitTables N netlist.now positions.now counts.now shape
        → result ≡ open_number N masks.now moved number }
{
    let outputs = outputs_part(netlist, shape.outputs);
    let out = pick_output(outputs, shape.outputs, counts, shape.inputs, number);
    open_from(
        netlist, positions, counts, shape, masks, moved, out.net, out.number,
    )
}

// The inputs that make an edge.
fn moved_of(edges: InputEdges, edge: Edge) -> u64
    ensures { result ≡ moved_by edges (model_edge edge) }
{
    match edge {
        Edge::Rising => edges.rises,
        Edge::Falling => edges.falls,
    }
}

// Whether a record that no rule of the place Test refuses detects the fault of a path and an edge.
pub(crate) fn detects_path(
    netlist: &[u8],
    positions: &[u16; 512],
    counts: &[u64; 512],
    shape: Shape,
    test: &[u8],
    class: u32,
    path: u64,
    edge: Edge,
) -> bool
    requires { LegalAsked netlist.now positions.now counts.now shape test.now path }
    ensures { (N : Netlist) → CircuitTables N netlist.now positions.now counts.now shape
        → result ≡ detects_number N (test_of N (class_of class) test.now) (model_edge edge) path }
{
    let vectors = read_vectors(test, shape.inputs);
    let masks = open_masks(netlist, positions, shape, vectors.v1, vectors.v2, class);
    let moved = moved_of(edges_of(vectors), edge);
    open_path(netlist, positions, counts, shape, &masks, moved, path)
}
