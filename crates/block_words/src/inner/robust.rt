// One gate in a block of records: its steadiness word, the robustly open word of a pin, and the active words of its pins in a class.
ghost use Rattle.std.specs.Prelude.{◌≡◌, ◌≤◌, length};
ghost use Rattle.model.specs.Read.{kind_of};
ghost use Rattle.block_words.specs.Words.{noncontrolling_mask_of, PinsIn};
ghost use Rattle.model.specs.Read.{class_of};
ghost use Rattle.block_words.specs.Robust.{SteadyIs, RobustIs};
ghost use Rattle.block_words.specs.NetStates.{PinOpenIs, ActiveBoth};
ghost use Rattle.block_words.specs.Layout.{nets_size};

use crate::inner::gates;
use crate::inner::gates::{Gate, PinScan, PinTally};
use crate::inner::layout::GATE_TABLE_SIZE;

// The steadiness word of a gate: every pin is steady, or one is steady at the controlling value.
pub fn steady_word(kind: u16, unsteady: u64, steady_controlling: u64) -> u64
    ensures { SteadyIs kind unsteady steady_controlling result }
{
    match kind {
        3 => !unsteady | steady_controlling,
        4 => !unsteady | steady_controlling,
        5 => !unsteady | steady_controlling,
        6 => !unsteady | steady_controlling,
        _ => !unsteady,
    }
}

// The robustly open word of a pin: it moves, the other pins are non-controlling under V2, and it ends non-controlling or they are steady.
fn robust_word(gate: Gate, last: PinTally, unsteady: PinTally, v1: u64, v2: u64, steady: u64) -> u64
    requires { (gate.noncontrolling_mask ≡ noncontrolling_mask_of (kind_of gate.kind)) × (gate.kind ≤ 8) }
    ensures { RobustIs gate.kind last unsteady v1 v2 steady result }
{
    let kind = gate.kind;
    let noncontrolling = gate.noncontrolling_mask;
    let moved = v1 ^ v2;
    let others_steady = gates::others_noncontrolling(unsteady.one, unsteady.two, !steady);
    let clear = gates::others_noncontrolling(last.one, last.two, noncontrolling ^ v2);
    let open = moved & (clear & ((noncontrolling ^ !v2) | others_steady));
    match kind {
        3 => open,
        4 => open,
        5 => open,
        6 => open,
        _ => moved & others_steady,
    }
}

// The open word of a pin in a class.
fn pin_word(class: u32, gate: Gate, scan: PinScan, v1: u64, v2: u64, steady: u64) -> u64
    requires { (gate.noncontrolling_mask ≡ noncontrolling_mask_of (kind_of gate.kind)) × (gate.kind ≤ 8) }
    ensures { PinOpenIs (class_of class) gate.kind scan v1 v2 steady result }
{
    if class == 2 {
        return robust_word(gate, scan.last, scan.unsteady, v1, v2, steady);
    }
    gates::open_word(gate, scan.last, v2)
}

// The records in which a gate is live for the rising and for the falling edge.
#[derive(Drop)]
pub struct Live {
    pub up: u64,
    pub down: u64,
}

// A pin is active for an edge where it is open and its net is live. The active words of the pins are the first of `rising_rows` and of `falling_rows`, which the caller lends: fresh
// arrays would be cleared and copied for each gate.
pub fn active_words(
    table: &[u16; GATE_TABLE_SIZE],
    class: u32,
    gate: Gate,
    scan: PinScan,
    words: &[u64],
    rising_rows: &mut [u64; 8],
    falling_rows: &mut [u64; 8],
) -> Live
    requires { PinsIn table.now gate × (gate.noncontrolling_mask ≡ noncontrolling_mask_of (kind_of gate.kind)) × (gate.kind ≤ 8) × (nets_size ≤ length words.now)
        × (length rising_rows.old ≡ 8) × (length falling_rows.old ≡ 8) }
    ensures { ActiveBoth (class_of class) table.now gate scan words.now rising_rows.new falling_rows.new result }
{
    let mut up: u64 = 0;
    let mut down: u64 = 0;
    for k in (0..gate.pins).rev() {
        let at = gates::pin_place(table, gate, k);
        let open = pin_word(class, gate, scan, words[at], words[at + 1], words[at + 2]);
        let rises = open & words[at + 3];
        let falls = open & words[at + 4];
        rising_rows[k] = rises;
        falling_rows[k] = falls;
        up = up | rises;
        down = down | falls;
    }
    Live { up, down }
}
