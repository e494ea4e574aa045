// How many pins a gate of a kind may have: asked by the readers of netlist files and of .bench text.
#![tactic(auto)]

ghost use Rattle.std.specs.Prelude.{◌≡◌};
ghost use Rattle.model.specs.Read.{pins_fit};

// Whether a gate of this kind can have so many pins.
pub fn pin_count_fits(kind: usize, pins: usize) -> bool
    ensures { result ≡ pins_fit kind pins }
{
    if kind <= 2 {
        return pins == 1;
    }
    if pins < 1 {
        return false;
    }
    pins <= 8
}
