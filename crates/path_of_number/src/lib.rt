// The path of a number.
#![tactic(auto)]

mod writing;

ghost use Rattle.path_of_number.specs.Answers.{PathWritten};

use crate::writing::write_path;
use model::{PATH_WORDS, Refusal};
use netlist::inner::load;
use path_faults::PathNo;

// Writes the path of a number into the first 513 words, with zeros after it. A refused call leaves the words as they were.
pub fn number_to_path(netlist: &[u8], number: PathNo, path: &mut [u16]) -> Result<(), Refusal>
    ensures { PathWritten result netlist.now number.0 path.old path.new }
{
    let wanted = number.0;
    if path.len() < PATH_WORDS {
        return Err(Refusal::PathBufferLength);
    }
    let mut counts = [0u64; 512];
    let mut positions = [0u16; 512];
    let legal = load(netlist, &mut counts, &mut positions)?;
    if wanted < 1 {
        return Err(Refusal::NoSuchNumber);
    }
    if legal.total < wanted {
        return Err(Refusal::NoSuchNumber);
    }
    write_path(netlist, &positions, &counts, legal.shape, wanted, path);
    Ok(())
}
