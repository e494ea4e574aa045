// The gates of a legal netlist as one table of numbers, made once for all blocks of an audit: the net at pin p of the gate that drives net n at
// place 8 n + p; then the gates' kinds and their numbers of pins.
ghost use Rattle.std.specs.Prelude.{◌≡◌, List, ℕ, ◌+◌, ◌*◌, ◌≤◌, length};
ghost use Rattle.model.specs.Netlist.{Netlist};
ghost use Rattle.netlist.specs.Tables.{CircuitTables, SomeCircuit, pin_in};
ghost use Rattle.block_words.specs.Words.{Filled};
ghost use Rattle.block_words.specs.Table.{CircuitTable, NetsIn};
ghost use Rattle.block_words.specs.Layout.{gate_table_size, kinds_at};

use crate::inner::layout::{GATE_TABLE_SIZE, KINDS_AT, PIN_COUNTS_AT};
use netlist::inner::{Shape, gate_part, pin_net};
use record_bytes::inner;

// The nets at the pins of the gate's record with which the part begins, from place `first` on.
fn fill_pins(part: &[u8], pins: usize, first: usize, table: &mut [u16; GATE_TABLE_SIZE])
    requires { NetsIn part.now pins × (first + 8 ≤ kinds_at) × (length table.old ≡ gate_table_size) }
    ensures { Filled first pins (λ p w. w ≡ pin_in part.now p) table.old table.new }
{
    for k in (0..pins).rev() {
        table[first + k] = pin_net(part, k) as u16;
    }
}

// The table of all gates.
pub fn fill_table(
    netlist: &[u8],
    positions: &[u16; 512],
    shape: Shape,
    table: &mut [u16; GATE_TABLE_SIZE],
)
    requires { SomeCircuit netlist.now positions.now shape × (length table.old ≡ gate_table_size) }
    ensures { (length table.new ≡ gate_table_size)
        × ((N : Netlist) (cs : List ℕ) → CircuitTables N netlist.now positions.now cs shape → CircuitTable N table.new shape.inputs shape.nets) }
{
    for net in shape.inputs..shape.nets {
        let part = gate_part(netlist, positions, net);
        let kind = part[2];
        let pins = part[3];
        table[KINDS_AT + net] = kind as u16;
        table[PIN_COUNTS_AT + net] = pins as u16;
        fill_pins(part, inner::wide(pins), 8 * net, table);
    }
}
