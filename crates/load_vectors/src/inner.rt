// A vector drawn, for our own crates: a caller proves what a function requires.
ghost use Rattle.std.specs.Prelude.{◌≡◌, ◌*◌, ◌^◌, ◌≤◌, ◌<◌};
ghost use Rattle.gate_packed_pins.specs.Packed.{one_where_of};
ghost use Rattle.load_vectors.specs.Drawing.{top_bit};
ghost use Rattle.load_vectors.specs.DrawnVector.{DrawnTrue};

use crate::next_state;

// A vector, input j in bit j, and the state after it was drawn.
#[derive(Drop)]
pub struct Drawn {
    pub vector: u64,
    pub state: u32,
}

// A state's top bit as the value of an input.
fn top_bit_at(state: u32, input: usize) -> u64
    requires { input < 64 }
    ensures { result ≡ one_where_of (top_bit state) * 2 ^ input }
{
    (((state >> 31) & 1) as u64) << (input as u64)
}

// Draws a vector: a step before each input, whose value is the new state's top bit.
pub fn draw_vector(state: u32, inputs: usize) -> Drawn
    requires { inputs ≤ 64 }
    ensures { DrawnTrue result inputs state }
{
    let mut vector: u64 = 0;
    let mut last = state;
    for input in 0..inputs {
        let next = next_state(last);
        vector += top_bit_at(next, input);
        last = next;
    }
    Drawn {
        vector,
        state: last,
    }
}
