// The open pins of all gates in a class: one pass over the gates, each net from the nets at its pins.
ghost use Rattle.std.specs.Prelude.{◌≡◌, List, ℕ, ◌≤◌, ◌<◌, eqb};
ghost use Rattle.model.specs.Base.{bit};
ghost use Rattle.model.specs.Netlist.{Netlist};
ghost use Rattle.model.specs.Detect.{Test};
ghost use Rattle.gate_logic.specs.States.{word_of};
ghost use Rattle.netlist.specs.Tables.{CircuitTables, SomeCircuit};
ghost use Rattle.single_simulation.specs.Simulated.{TestIs, InputStates, input_state_of, OpenMasks};

use crate::inner::packing;
use gate_logic::inner::{class_pins, evaluate, state_word};
use netlist::inner::{Shape, gate_part};
use record_bytes::inner::wide;

// The bit of an input.
fn input_value(vector: u64, input: usize) -> u8
    requires { input < 64 }
    ensures { (result < 2) × (eqb result 1 ≡ bit vector input) }
{
    ((vector >> (input as u64)) & 1) as u8
}

// The state of an input.
fn input_state(v1: u64, v2: u64, input: usize) -> u32
    requires { input < 64 }
    ensures { result ≡ word_of (input_state_of v1 v2 input) }
{
    let first = input_value(v1, input);
    let last = input_value(v2, input);
    state_word(first == 1, last == 1, first == last)
}

// The states of the inputs, 0 for the other nets.
fn input_states(v1: u64, v2: u64, inputs: usize) -> [u32; 512]
    requires { inputs ≤ 64 }
    ensures { InputStates v1 v2 inputs result }
{
    let mut states = [0u32; 512];
    for i in 0..inputs {
        states[i] = input_state(v1, v2, i);
    }
    states
}

// For each gate its open pins in a class, pin 0 in the lowest bit, at the place of the net that it drives. Every net is evaluated under both
// vectors, in either class.
pub fn open_masks(
    netlist: &[u8],
    positions: &[u16; 512],
    shape: Shape,
    v1: u64,
    v2: u64,
    class: u32,
) -> [u8; 512]
    requires { SomeCircuit netlist.now positions.now shape }
    ensures { (N : Netlist) (cs : List ℕ) (t : Test) → CircuitTables N netlist.now positions.now cs shape → TestIs N t class v1 v2 → OpenMasks N t result }
{
    let mut states = input_states(v1, v2, shape.inputs);
    let mut masks = [0u8; 512];
    for net in shape.inputs..shape.nets {
        let part = gate_part(netlist, positions, net);
        let kind = part[2];
        let pins = part[3];
        let packed = packing::pack_states(part, wide(pins), &states);
        let at_pins = packing::pin_states(packed);
        masks[net] = class_pins(class, kind, pins, at_pins);
        states[net] = evaluate(kind, pins, at_pins);
    }
    masks
}
