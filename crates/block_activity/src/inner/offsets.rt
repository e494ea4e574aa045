// Where the paths of each pin and of each output begin, made once for all blocks of an audit: the paths of the pins before pin p of the gate that drives
// net n at place 8 n + p; then those of the outputs before each output, and the outputs' nets.
ghost use Rattle.std.specs.Prelude.{◌≡◌, List, ℕ, length};
ghost use Rattle.model.specs.Netlist.{Netlist};
ghost use Rattle.netlist.specs.Tables.{CircuitTables};
ghost use Rattle.block_words.specs.Table.{CircuitTable};
ghost use Rattle.block_activity.specs.Marks.{OffsetTable};
ghost use Rattle.block_activity.specs.OffsetParts.{GateFits, PinsPlaced, GatesFit, GatesPlaced, OutputsFit, OutputsPlaced, SomeOffsets};
ghost use Rattle.block_activity.specs.Layout.{offset_table_size};

use crate::inner::layout::{OFFSET_TABLE_SIZE, OUTPUT_NETS_AT, OUTPUT_OFFSETS_AT};
use block_words::inner::layout::{GATE_TABLE_SIZE, PIN_COUNTS_AT};
use netlist::inner::{Shape, output_net, outputs_part};
use netlist_outputs::inner::output_paths;
use record_bytes::inner::wide_word;

// The pins of the gate that drives a net.
fn pin_offsets(
    counts: &[u64; 512],
    table: &[u16; GATE_TABLE_SIZE],
    net: usize,
    offsets: &mut [u64; OFFSET_TABLE_SIZE],
)
    requires { GateFits counts.now table.now net × (length offsets.old ≡ offset_table_size) }
    ensures { PinsPlaced counts.now table.now net offsets.old offsets.new }
{
    let pins = wide_word(table[PIN_COUNTS_AT + net]);
    let mut offset: u64 = 0;
    for p in 0..pins {
        offsets[8 * net + p] = offset;
        offset += counts[wide_word(table[8 * net + p])];
    }
}

// The pins of the gates that drive the nets from `low` to below `high`.
fn gate_offsets(
    counts: &[u64; 512],
    table: &[u16; GATE_TABLE_SIZE],
    low: usize,
    high: usize,
    offsets: &mut [u64; OFFSET_TABLE_SIZE],
)
    requires { GatesFit counts.now table.now low high × (length offsets.old ≡ offset_table_size) }
    ensures { GatesPlaced counts.now table.now low high offsets.new }
{
    for net in low..high {
        pin_offsets(counts, table, net, offsets);
    }
}

// The outputs, from their records.
fn output_offsets(
    part: &[u8],
    inputs: usize,
    outputs: usize,
    counts: &[u64; 512],
    offsets: &mut [u64; OFFSET_TABLE_SIZE],
)
    requires { OutputsFit part.now inputs outputs counts.now × (length offsets.old ≡ offset_table_size) }
    ensures { OutputsPlaced part.now inputs outputs counts.now offsets.old offsets.new }
{
    let mut offset: u64 = 0;
    for o in 0..outputs {
        let net = output_net(&part[4 * o..]);
        offsets[OUTPUT_OFFSETS_AT + o] = offset;
        offsets[OUTPUT_NETS_AT + o] = net as u64;
        offset += output_paths(counts, inputs, net);
    }
}

// The path offsets of a netlist's pins and outputs.
pub fn fill_path_offsets(
    netlist: &[u8],
    counts: &[u64; 512],
    shape: Shape,
    table: &[u16; GATE_TABLE_SIZE],
    offsets: &mut [u64; OFFSET_TABLE_SIZE],
)
    requires { SomeOffsets netlist.now counts.now shape table.now × (length offsets.old ≡ offset_table_size) }
    ensures { (length offsets.new ≡ offset_table_size)
        × ((N : Netlist) (positions : List ℕ) → CircuitTables N netlist.now positions counts.now shape
        → CircuitTable N table.now shape.inputs shape.nets → OffsetTable N offsets.new) }
{
    gate_offsets(counts, table, shape.inputs, shape.nets, offsets);
    let part = outputs_part(netlist, shape.outputs);
    output_offsets(part, shape.inputs, shape.outputs, counts, offsets);
}
