// One gate under two vectors: what evaluating its net yields, and its open pins in a class, from what evaluating the nets at its pins yielded.
// Each caller proves what a function requires.
// A net's state is a word: its value under V2 in the lowest byte, its value under V1 in the next, whether it is steady in the third.
ghost use Rattle.std.specs.Prelude.{◌≡◌, ℕ, ◌<◌, ◌≤◌};
ghost use Rattle.model.specs.Base.{bit};
ghost use Rattle.model.specs.Detect as detect;
ghost use Rattle.model.specs.Read.{kind_of, class_of};
ghost use Rattle.gate_packed_pins.specs.Packed.{one_where_of};
ghost use Rattle.gate_logic.specs.States.{steady_by_of, state_of, word_of, pins_in, PackedStates};

use gate_packed_pins::inner::{all_pins, is_odd, open_pins, open_set};

// What evaluating the nets at the pins of a gate yielded, a bit for each pin, pin 0 in the lowest.
#[derive(Clone, Copy)]
pub struct PinStates {
    pub v1: u8,
    pub v2: u8,
    pub steady: u8,
}

// A bit in a word.
fn one_where(value: bool) -> u32
    ensures { (result ≡ one_where_of value) × (result ≤ 1) }
{
    if value { 1 } else { 0 }
}

// A net's state as a word.
pub fn state_word(v1: bool, v2: bool, steady: bool) -> u32
    ensures { result ≡ word_of (state_of v1 v2 steady) }
{
    one_where(v2) + 256 * one_where(v1) + 65536 * one_where(steady)
}

// All pins are steady, or one pin is steady at the controlling value, where `controlling` are those at it. Without a branch that depends on the
// values.
fn gate_steady(all: u8, steady: u8, controlling: u8) -> bool
    ensures { result ≡ steady_by_of all steady controlling }
{
    one_where(steady == all) | one_where(steady & controlling != 0) != 0
}

// What evaluating the gate's net yields, as a word.
pub fn evaluate(kind: u8, pins: u8, states: PinStates) -> u32
    requires { PackedStates kind pins states }
    ensures { result ≡ word_of (detect.gate_evaluation (kind_of kind) (pins_in pins states.v1 states.v2 states.steady)) }
{
    let v1 = states.v1;
    let v2 = states.v2;
    let steady = states.steady;
    let all = all_pins(pins);
    match kind {
        1 => state_word(v1 != 0, v2 != 0, steady != 0),
        2 => state_word(v1 == 0, v2 == 0, steady != 0),
        3 => state_word(v1 == all, v2 == all, gate_steady(all, steady, all - v2)),
        4 => state_word(v1 != all, v2 != all, gate_steady(all, steady, all - v2)),
        5 => state_word(v1 != 0, v2 != 0, gate_steady(all, steady, v2)),
        6 => state_word(v1 == 0, v2 == 0, gate_steady(all, steady, v2)),
        7 => state_word(is_odd(v1), is_odd(v2), steady == all),
        _ => state_word(!is_odd(v1), !is_odd(v2), steady == all),
    }
}

// The robustly open pins of a gate, a bit for each: those that moved, that are open under V2, and whose other pins are steady or that end at the
// non-controlling value.
fn robust_pins(kind: u8, pins: u8, states: PinStates) -> u8
    requires { PackedStates kind pins states }
    ensures { (p : ℕ) → p < pins → bit result p ≡ detect.is_open detect.robust (kind_of kind) (pins_in pins states.v1 states.v2 states.steady) p }
{
    let v2 = states.v2;
    let moved = states.v1 ^ v2;
    let all = all_pins(pins);
    let calm = open_set(all, all - states.steady);
    match kind {
        3 => moved & open_set(all, all - v2) & (v2 | calm),
        4 => moved & open_set(all, all - v2) & (v2 | calm),
        5 => moved & open_set(all, v2) & (all - v2 | calm),
        6 => moved & open_set(all, v2) & (all - v2 | calm),
        _ => moved & calm,
    }
}

// The open pins of a gate in a class, a bit for each.
pub fn class_pins(class: u32, kind: u8, pins: u8, states: PinStates) -> u8
    requires { PackedStates kind pins states }
    ensures { (p : ℕ) → p < pins → bit result p ≡ detect.is_open (class_of class) (kind_of kind) (pins_in pins states.v1 states.v2 states.steady) p }
{
    if class == 2 {
        return robust_pins(kind, pins, states);
    }
    open_pins(kind, pins, states.v2)
}
