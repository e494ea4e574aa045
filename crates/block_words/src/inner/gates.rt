// One gate in a block of records: what its pins show, its value word and, in class 1, the open word of a pin. The words of a net stand together, those of net n
// from place 8 n on: under V1, under V2, steady, live for the rising edge, live for the falling edge.
ghost use Rattle.std.specs.Prelude.{◌≡◌, ◌<◌, ◌≤◌, length};
ghost use Rattle.model.specs.Read.{kind_of};
ghost use Rattle.block_words.specs.Words.{noncontrolling_mask_of, GateIs, PinsIn, PinPlace, SidesNoncontrolling, ValueIs, OpenIs};
ghost use Rattle.block_words.specs.NetStates.{PinAdded, PinsScanned};
ghost use Rattle.block_words.specs.Layout.{nets_size};

use crate::inner::layout::{GATE_TABLE_SIZE, KINDS_AT, PIN_COUNTS_AT};
use record_bytes::inner;

// A gate of the table: its kind, its number of pins, the place of its first pin, and its kind's non-controlling value in all bits.
#[derive(Clone, Copy)]
pub struct Gate {
    pub kind: u16,
    pub pins: usize,
    pub first: usize,
    pub noncontrolling_mask: u64,
}

// What the pins of a gate show: the records in which one pin or more is controlling, in which two or more are, and the parity.
#[derive(Clone, Copy)]
pub struct PinTally {
    pub one: u64,
    pub two: u64,
    pub parity: u64,
}

// All ones where 0 is the controlling value: AND and NAND.
fn mask_of_kind(kind: u16) -> u64
    ensures { result ≡ noncontrolling_mask_of (kind_of kind) }
{
    match kind {
        3 => 0xFFFFFFFFFFFFFFFF,
        4 => 0xFFFFFFFFFFFFFFFF,
        _ => 0,
    }
}

// The gate that drives a net.
pub fn gate_at(table: &[u16; GATE_TABLE_SIZE], net: usize) -> Gate
    requires { net < 512 }
    ensures { GateIs table.now net result }
{
    let kind = table[KINDS_AT + net];
    let pins = inner::wide_word(table[PIN_COUNTS_AT + net]);
    let noncontrolling_mask = mask_of_kind(kind);
    Gate {
        kind,
        pins,
        first: 8 * net,
        noncontrolling_mask,
    }
}

// Where the words of the net at a pin stand.
pub fn pin_place(table: &[u16; GATE_TABLE_SIZE], gate: Gate, pin: usize) -> usize
    requires { PinsIn table.now gate × (pin < gate.pins) }
    ensures { PinPlace table.now gate pin result }
{
    8 * inner::wide_word(table[gate.first + pin])
}

// The tally with one pin more, which counts as controlling where its word differs from `noncontrolling`.
fn add_pin(tally: PinTally, noncontrolling: u64, value: u64) -> PinTally
    ensures { PinAdded tally noncontrolling value result }
{
    let controlling = noncontrolling ^ value;
    PinTally {
        one: tally.one | controlling,
        two: tally.two | (tally.one & controlling),
        parity: tally.parity ^ value,
    }
}

// What the pins of a gate show: under V1, under V2, where they are not steady, and where one is steady at the controlling value.
#[derive(Clone, Copy)]
pub struct PinScan {
    pub first: PinTally,
    pub last: PinTally,
    pub unsteady: PinTally,
    pub steady_controlling: u64,
}

// The pins of a gate, the last one first.
pub fn scan_pins(table: &[u16; GATE_TABLE_SIZE], gate: Gate, words: &[u64]) -> PinScan
    requires { PinsIn table.now gate × (nets_size ≤ length words.now) }
    ensures { PinsScanned table.now gate words.now result }
{
    let nothing = PinTally {
        one: 0,
        two: 0,
        parity: 0,
    };
    let mut first = nothing;
    let mut last = nothing;
    let mut unsteady = nothing;
    let mut steady_controlling: u64 = 0;
    let noncontrolling = gate.noncontrolling_mask;
    for k in (0..gate.pins).rev() {
        let at = pin_place(table, gate, k);
        let v2 = words[at + 1];
        let steady = words[at + 2];
        first = add_pin(first, noncontrolling, words[at]);
        last = add_pin(last, noncontrolling, v2);
        unsteady = add_pin(unsteady, 0xFFFFFFFFFFFFFFFF, steady);
        steady_controlling = steady_controlling | (steady & (noncontrolling ^ v2));
    }
    PinScan {
        first,
        last,
        unsteady,
        steady_controlling,
    }
}

// The value word of a gate.
pub fn value_word(kind: u16, one: u64, parity: u64) -> u64
    requires { (1 ≤ kind) × (kind ≤ 8) }
    ensures { ValueIs kind one parity result }
{
    match kind {
        3 => !one,
        4 => one,
        5 => one,
        6 => !one,
        1 => parity,
        7 => parity,
        _ => !parity,
    }
}

// The records in which none but the marked pin is controlling: none is, or this one alone.
pub fn others_noncontrolling(one: u64, two: u64, mark: u64) -> u64
    ensures { SidesNoncontrolling one two mark result }
{
    !one | (!two & mark)
}

// The open word of a pin with this value word.
pub fn open_word(gate: Gate, tally: PinTally, value: u64) -> u64
    requires { gate.noncontrolling_mask ≡ noncontrolling_mask_of (kind_of gate.kind) }
    ensures { OpenIs gate.kind tally value result }
{
    let kind = gate.kind;
    let open = others_noncontrolling(tally.one, tally.two, gate.noncontrolling_mask ^ value);
    match kind {
        3 => open,
        4 => open,
        5 => open,
        6 => open,
        _ => 0xFFFFFFFFFFFFFFFF,
    }
}
