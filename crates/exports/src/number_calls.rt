// Path numbers and fault numbers for C: the way from one to the other.
ghost use Rattle.std.specs.Prelude.{◌≡◌};
ghost use Rattle.c_answer_words.specs.Codes.{answer_after, Answered, number_word};
ghost use Rattle.c_calls.specs.FaultNumbers.{fault_of_call, path_of_call, path_word, side_word};

use path_faults::{FaultNo, PathNo};

// The fault of a path number and an edge, 0 rising, 1 falling: 2i - 1 or 2i.
#[unsafe(no_mangle)]
pub extern "C" fn genduwal_fault_of(number: u64, edge: u32, answer: &mut [u64; 1]) -> u32
    ensures { Answered (fault_of_call number edge) number_word result answer.old answer.new }
{
    c_calls::fault_of_code(PathNo(number), edge, answer)
}

// The path number of a fault, and its edge, 0 rising, 1 falling.
#[unsafe(no_mangle)]
pub extern "C" fn genduwal_path_of(fault: u64, answer: &mut [u64; 1], edge: &mut [u32; 1]) -> u32
    ensures answered { Answered (path_of_call fault) path_word result answer.old answer.new }
    ensures edge_after { edge.new ≡ answer_after (path_of_call fault) side_word edge.old }
{
    c_calls::path_of_code(FaultNo(fault), answer, edge)
}
