// The header record of a netlist file.
ghost use Rattle.std.specs.Prelude.{◌≡◌};
ghost use Rattle.model.specs.Read.{header_range};
ghost use Rattle.netlist.specs.Reading.{header_step};
ghost use Rattle.model.specs.Returned.{answer_of};

use model::Refusal;
use record_bytes::inner::{begins_with, u16_at};

#[derive(Drop)]
pub(crate) struct Header {
    pub(crate) inputs: usize,
    pub(crate) gates: usize,
    pub(crate) outputs: usize,
}

pub(crate) fn read_header(netlist: &[u8]) -> Result<Header, Refusal>
    ensures { answer_of result ≡ header_step netlist.now }
{
    let marked = begins_with(netlist, 8, 0x4E, 0x4C);
    if !marked {
        return Err(Refusal::Header);
    }
    let inputs = u16_at(netlist, 2);
    let gates = u16_at(netlist, 4);
    let outputs = u16_at(netlist, 6);
    let fits = in_range(inputs, gates, outputs);
    if fits {
        Ok(Header {
            inputs,
            gates,
            outputs,
        })
    } else {
        Err(Refusal::HeaderRange)
    }
}

// Whether a header's numbers are within their limits.
fn in_range(inputs: usize, gates: usize, outputs: usize) -> bool
    ensures { result ≡ header_range inputs gates outputs }
{
    if inputs < 1 {
        return false;
    }
    if 64 < inputs {
        return false;
    }
    if 511 < gates {
        return false;
    }
    if 512 < inputs + gates {
        return false;
    }
    1 <= outputs && outputs <= 64
}
