// A load in pieces. Each caller proves what a function requires.
ghost use Rattle.std.specs.Prelude.{◌≡◌, ◌≤◌, length};
ghost use Rattle.std.proofs.lemmas.List.Edits.{sets};
ghost use Rattle.load_walk.specs.LoadWalk.{lesser, piece_of, next_walk};

use load::inner::{put_vectors, vector_size};

// A load on its way: the state that the next vector is drawn from, the vectors that are left, their inputs, and the bytes of the last piece.
#[derive(Clone, Copy)]
pub struct Walk {
    pub state: u32,
    pub left: usize,
    pub inputs: usize,
    pub size: usize,
}

// The smaller of two numbers.
fn least(a: usize, b: usize) -> usize
    ensures { result ≡ lesser a b }
{
    if a < b { a } else { b }
}

// Writes the next piece at the start of a buffer: the records of as many vectors as are left, or as fit. The walk after it.
pub fn next_piece(walk: Walk, records: &mut [u8]) -> Walk
    requires { (1 ≤ walk.inputs) × (walk.inputs ≤ 64) × (2304 ≤ length records.old) }
    ensures value { result ≡ next_walk (length records.old) walk }
    ensures records_after { records.new ≡ sets records.old 0 (piece_of (length records.old) walk) }
{
    let Walk {
        state,
        left,
        inputs,
        size: _,
    } = walk;
    let each = vector_size(inputs);
    let vectors = least(left, records.len() / each);
    let after = put_vectors(state, inputs, vectors, records);
    Walk {
        state: after,
        left: left - vectors,
        inputs,
        size: vectors * each,
    }
}
