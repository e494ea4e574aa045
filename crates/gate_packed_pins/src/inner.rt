// One gate under one vector: parity and open pins, from the values at its pins packed into a byte, pin 0 in the lowest bit.
// Each caller proves what a function requires.
ghost use Rattle.std.specs.Prelude.{◌≡◌, List, map, ℕ, ◌-◌, ◌<◌, ◌≤◌, ◌^◌};
ghost use Rattle.model.specs.Base.{bit};
ghost use Rattle.model.specs.Detect as detect;
ghost use Rattle.model.specs.Read.{kind_of};
ghost use Rattle.gate_packed_pins.specs.Packed.{bits_in, parity_of, open_set_of, PackedPins};

// Whether a byte has an odd number of ones: its upper four bits are folded onto the lower four, which keeps the parity, and bit n of 0x6996 is the
// parity of n.
// Two more folds would do without that number, but a gate that waits for this one's value would wait longer.
pub fn is_odd(packed: u8) -> bool
    ensures { result ≡ parity_of packed }
{
    let four = (packed ^ (packed >> 4)) % 16;
    (0x6996u16 >> four) & 1 == 1
}

// All pins of a gate, a bit for each.
pub fn all_pins(pins: u8) -> u8
    requires { pins ≤ 8 }
    ensures { result ≡ 2 ^ pins - 1 }
{
    if pins == 8 {
        return 255;
    }
    (1u8 << pins) - 1
}

// The pins of which every other pin is non-controlling, where `controlling` are those that are not.
// In this order of the tests the compiled code has no branch that depends on the values.
pub fn open_set(all: u8, controlling: u8) -> u8
    ensures { result ≡ open_set_of all controlling }
{
    let lower = ((controlling as u16 + 255) % 256) as u8;
    if controlling & lower != 0 {
        return 0;
    }
    if controlling == 0 { all } else { controlling }
}

// The open pins of a gate in class 1, a bit for each, from the values at its pins under V2.
pub fn open_pins(kind: u8, pins: u8, packed: u8) -> u8
    requires { PackedPins kind pins packed }
    ensures { (ns : List detect.Evaluation) → bits_in pins packed ≡ map (λ n. n.under_v2) ns
        → (p : ℕ) → p < pins → bit result p ≡ detect.is_open detect.nonRobust (kind_of kind) ns p }
{
    let all = all_pins(pins);
    match kind {
        3 => open_set(all, all - packed),
        4 => open_set(all, all - packed),
        5 => open_set(all, packed),
        6 => open_set(all, packed),
        _ => all,
    }
}
