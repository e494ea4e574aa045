// Each caller proves what a function requires.
ghost use Rattle.std.specs.Prelude.{◌≡◌, ◌<◌, eqb};
ghost use Rattle.model.specs.Base.{bit};

// A digit of a word: 1 where the pin is open, or where the input makes the edge.
pub fn digit(word: u64, place: u64) -> usize
    requires { place < 64 }
    ensures { (result < 2) × (eqb result 1 ≡ bit word place) }
{
    ((word >> place) & 1) as usize
}
