// The number of a path.
#![tactic(auto)]

mod reading;

ghost use Rattle.std.specs.Prelude.{◌≡◌};
ghost use Rattle.model.specs.Calls.{path_to_number_call};
ghost use Rattle.path_to_number.specs.PathNumbers.{number_answer};

use crate::reading::read_path;
use model::Refusal;
use netlist::inner::load;
use path_faults::PathNo;

// The number of the path in the words: output place, number of pins, then the pins.
pub fn path_to_number(netlist: &[u8], path: &[u16]) -> Result<PathNo, Refusal>
    ensures { number_answer result ≡ path_to_number_call netlist.now path.now }
{
    let mut counts = [0u64; 512];
    let mut positions = [0u16; 512];
    let legal = load(netlist, &mut counts, &mut positions)?;
    let number = read_path(netlist, &positions, &counts, legal.shape, path);
    if number == 0 {
        return Err(Refusal::NotAPath);
    }
    Ok(PathNo(number))
}
