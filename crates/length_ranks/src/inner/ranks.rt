// How many paths up to a number have each length, by one descent from the output that the number ends at.
ghost use Rattle.std.specs.Prelude.{◌≡◌, ◌≤◌, ◌<◌, get_or};
ghost use Rattle.model.specs.Base.{value};
ghost use Rattle.model.specs.Netlist.{Netlist};
ghost use Rattle.model.specs.Read.{read_netlist};
ghost use Rattle.path_step.specs.Picks.{RecordsOfOutputs};
ghost use Rattle.length_rows.specs.Lengths.{row, paths_up_to, partials_up_to};
ghost use Rattle.length_rows.specs.RowSums.{Room, added};
ghost use Rattle.length_ranks.specs.NetRows.{RowTables, Ranked, Small, output_sum, output_sums};

use crate::inner::net_rows::add_pins;
use length_rows::inner::{LENGTHS, add_longer};
use netlist::inner::{Shape, gate_part, output_net, outputs_part};
use path_step::inner::outputs::pick_output;
use path_step::inner::pins::pick_pin;

// Adds the row of an output's net: nothing at an input, where the output is a wire without a gate.
fn add_output(sums: &mut [u64; 64], rows: &[[u64; 64]; 512], inputs: usize, net: usize)
    requires { (net < 512) × Room sums.old (output_sum inputs rows.now net) }
    ensures { sums.new ≡ added sums.old (output_sum inputs rows.now net) }
{
    if net < inputs {
        return;
    }
    add_longer(sums, &rows[net], 0);
}

// Adds the rows of the outputs before a place, with whose records the part begins.
fn add_outputs(
    part: &[u8],
    rows: &[[u64; 64]; 512],
    inputs: usize,
    place: usize,
    sums: &mut [u64; 64],
)
    requires { RecordsOfOutputs part.now place × Room sums.old (output_sums part.now place inputs rows.now) }
    ensures { sums.new ≡ added sums.old (output_sums part.now place inputs rows.now) }
{
    for before in 0..place {
        let net = output_net(&part[4 * before..]);
        add_output(sums, rows, inputs, net);
    }
}

// Adds how many of the partial paths 1 to `number` of a net have each length: at each gate on the way the rows of the pins before the one that the
// number goes through, for paths that are longer by the gates so far.
fn add_partials(
    netlist: &[u8],
    positions: &[u16; 512],
    counts: &[u64; 512],
    rows: &[[u64; 64]; 512],
    shape: Shape,
    net: usize,
    number: u64,
    sums: &mut [u64; 64],
)
    requires { RowTables netlist.now positions.now counts.now shape rows.now × (net < shape.nets) × (1 ≤ number) × (number ≤ get_or counts.now net 0)
        × Small sums.old }
    ensures { (N : Netlist) → read_netlist netlist.now ≡ value N → sums.new ≡ added sums.old (λ l. partials_up_to N net l number) }
{
    let inputs = shape.inputs;
    let mut at = net;
    let mut rest = number;
    let mut gates = 0;
    while inputs <= at {
        let part = gate_part(netlist, positions, at);
        let pick = pick_pin(part, counts, rest);
        gates += 1;
        add_pins(part, rows, pick.pin, gates, sums);
        at = pick.net;
        rest = pick.number;
    }
    if LENGTHS <= gates {
        return;
    }
    sums[gates] = sums[gates] + rest;
}

// How many of the paths 1 to `number` have each length.
pub fn rank_row(
    netlist: &[u8],
    positions: &[u16; 512],
    counts: &[u64; 512],
    rows: &[[u64; 64]; 512],
    shape: Shape,
    number: u64,
) -> [u64; 64]
    requires { Ranked netlist.now positions.now counts.now shape rows.now number }
    ensures { (N : Netlist) → read_netlist netlist.now ≡ value N → result ≡ row (λ l. paths_up_to N l number) }
{
    let mut sums = [0u64; 64];
    if number < 1 {
        return sums;
    }
    let outputs = outputs_part(netlist, shape.outputs);
    let out = pick_output(outputs, shape.outputs, counts, shape.inputs, number);
    add_outputs(outputs, rows, shape.inputs, out.pin, &mut sums);
    add_partials(
        netlist, positions, counts, rows, shape, out.net, out.number, &mut sums,
    );
    sums
}
