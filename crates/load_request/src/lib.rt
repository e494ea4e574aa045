// What load.bin asks for.
#![tactic(auto)]

ghost use Rattle.std.specs.Prelude.{◌≡◌, ◌+◌, ◌<◌, length};
ghost use Rattle.model.specs.Base.{field};
ghost use Rattle.load_request.specs.Requests.{request_of};
ghost use Rattle.load_request.specs.AskedLoads.{asked_of};

use record_bytes::inner::u16_at;

// The bytes of load.bin.
pub const REQUEST_BYTES: usize = 10;

// What load.bin asks for: nothing where it has another length.
#[derive(Drop)]
pub struct LoadAsked {
    pub seed: u32,
    pub vectors: u32,
    pub inputs: u32,
}

// What the bytes of load.bin ask for.
pub fn read_request(bytes: &[u8]) -> Option<LoadAsked>
    ensures { asked_of result ≡ request_of bytes.now }
{
    if bytes.len() != REQUEST_BYTES {
        return None;
    }
    let seed = u32_at(bytes, 0);
    let vectors = u32_at(bytes, 4);
    let inputs = u16_at(bytes, 8) as u32;
    Some(LoadAsked {
        seed,
        vectors,
        inputs,
    })
}

// The field of four bytes at a place.
fn u32_at(s: &[u8], at: usize) -> u32
    requires { at + 3 < length s.now }
    ensures { result ≡ field at 4 s.now }
{
    let low = u16_at(s, at);
    let high = u16_at(s, at + 2);
    (low + 65536 * high) as u32
}
