// The row of each net: how many of its partial paths have each length.
ghost use Rattle.std.specs.Prelude.{◌≡◌, ◌≤◌, ◌<◌, length};
ghost use Rattle.model.specs.Base.{value};
ghost use Rattle.model.specs.Netlist.{Netlist, max_nets};
ghost use Rattle.model.specs.Read.{read_netlist};
ghost use Rattle.netlist.specs.Tables.{SomeCircuit, pin_count_in};
ghost use Rattle.path_step.specs.Picks.{PinsIn};
ghost use Rattle.length_rows.specs.Lengths.{row, partials};
ghost use Rattle.length_rows.specs.RowSums.{Room, added, longer};
ghost use Rattle.length_ranks.specs.NetRows.{NetRows, RowsBefore, pin_sums, pin_sums_before};

use length_rows::inner::add_longer;
use netlist::inner::{Shape, gate_part, pin_net};
use record_bytes::inner::wide;

// Adds the rows of the nets at the first pins of the gate's record with which the part begins, for paths that are longer by `by` gates.
pub(crate) fn add_pins(
    part: &[u8],
    rows: &[[u64; 64]; 512],
    pins: usize,
    by: usize,
    sums: &mut [u64; 64],
)
    requires { PinsIn part.now × (pins ≤ pin_count_in part.now) × Room sums.old (longer by (pin_sums part.now rows.now)) }
    ensures { sums.new ≡ added sums.old (longer by (pin_sums_before part.now rows.now pins)) }
{
    for pin in 0..pins {
        let net = pin_net(part, pin);
        add_longer(sums, &rows[net], by);
    }
}

// The row of a net, from those of the nets before it.
pub(crate) fn net_row(
    netlist: &[u8],
    positions: &[u16; 512],
    shape: Shape,
    rows: &[[u64; 64]; 512],
    net: usize,
) -> [u64; 64]
    requires { RowsBefore netlist.now positions.now shape net rows.now × (net < shape.nets) }
    ensures { (N : Netlist) → read_netlist netlist.now ≡ value N → result ≡ row (partials N net) }
{
    let mut sums = [0u64; 64];
    if net < shape.inputs {
        sums[0] = 1;
        return sums;
    }
    let part = gate_part(netlist, positions, net);
    let pins = wide(part[3]);
    add_pins(part, rows, pins, 1, &mut sums);
    sums
}

// Fills in the row of each net.
pub fn fill_rows(netlist: &[u8], positions: &[u16; 512], shape: Shape, rows: &mut [[u64; 64]; 512])
    requires { SomeCircuit netlist.now positions.now shape × (length rows.old ≡ max_nets) }
    ensures { (N : Netlist) → read_netlist netlist.now ≡ value N → NetRows N shape.nets rows.new }
{
    let nets = shape.nets;
    for net in 0..nets {
        let sums = net_row(netlist, positions, shape, rows, net);
        rows[net] = sums;
    }
}
