// The states at the pins of a gate, from the states of all nets. Packed pin by pin, the states of up to eight pins are three packed bytes in one word.
ghost use Rattle.std.specs.Prelude.{◌≡◌, ◌<◌};
ghost use Rattle.single_simulation.specs.StateWords.{StatesAt, PacksStates, low_lane, mid_lane, high_lane};

use gate_logic::inner::PinStates;
use netlist::inner::pin_net;

// The states at the pins of a gate's record of two pins, packed.
fn pack_two(part: &[u8], states: &[u32; 512]) -> u32
    requires { StatesAt part.now 2 states.now }
    ensures { PacksStates part.now 2 states.now result }
{
    let first = pin_net(part, 0);
    let second = pin_net(part, 1);
    2 * states[second] + states[first]
}

// The states at the pins of the gate's record with which the part begins, packed. Most gates have two pins: of these without a loop.
pub(crate) fn pack_states(part: &[u8], pins: usize, states: &[u32; 512]) -> u32
    requires { StatesAt part.now pins states.now }
    ensures { PacksStates part.now pins states.now result }
{
    if pins == 2 {
        return pack_two(part, states);
    }
    let mut packed: u32 = 0;
    for k in (0..pins).rev() {
        let net = pin_net(part, k);
        packed = 2 * packed + states[net];
    }
    packed
}

// The packed word's three bytes.
pub(crate) fn pin_states(packed: u32) -> PinStates
    requires { packed < 16777216 }
    ensures { (result.v2 ≡ low_lane packed) × (result.v1 ≡ mid_lane packed) × (result.steady ≡ high_lane packed) }
{
    PinStates {
        v1: (packed / 256 % 256) as u8,
        v2: (packed % 256) as u8,
        steady: (packed / 65536) as u8,
    }
}
