// The walk over a load, for the program make_load: what load.bin starts, and the records piece by piece.
#![tactic(auto)]

pub mod inner;

ghost use Rattle.std.specs.Prelude.{◌≡◌};
ghost use Rattle.load_request.specs.Requests.{request_of};
ghost use Rattle.load_walk.specs.LoadWalk.{start_of};

use crate::inner::Walk;
use load::inputs_fit;
use load_request::{LoadAsked, read_request};

// Why load.bin starts nothing: it has not ten bytes, or a number of inputs that is refused.
#[derive(Clone, Copy)]
pub enum StartRefusal {
    OtherLength,
    InputsRefused,
}

// The load that the bytes of load.bin start.
pub fn begin(bytes: &[u8]) -> Result<Walk, StartRefusal>
    ensures { result ≡ start_of (request_of bytes.now) }
{
    let asked = read_request(bytes);
    match asked {
        None => Err(StartRefusal::OtherLength),
        Some(
            LoadAsked {
                seed,
                vectors,
                inputs,
            },
        ) => {
            let fit = inputs_fit(inputs);
            if !fit {
                return Err(StartRefusal::InputsRefused);
            }
            Ok(Walk {
                state: seed,
                left: vectors as usize,
                inputs: inputs as usize,
                size: 0,
            })
        }
    }
}
