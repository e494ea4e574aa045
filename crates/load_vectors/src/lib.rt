// Vectors drawn by a generator of 32 bits; inner: one vector drawn.
#![tactic(auto)]

pub mod inner;

ghost use Rattle.std.specs.Prelude.{◌≡◌};
ghost use Rattle.load_vectors.specs.Drawing.{next_state_of};

// A step of the generator.
pub fn next_state(state: u32) -> u32
    ensures { result ≡ next_state_of state }
{
    ((1664525 * (state as u64) + 1013904223) % 4294967296) as u32
}
