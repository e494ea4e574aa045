// The output records of a netlist file, each read from the part that begins at its mark.
// Each caller proves what a function requires.
ghost use Rattle.std.specs.Prelude.{◌≡◌, ◌^◌, ◌≤◌, ◌<◌, length, drop};
ghost use Rattle.model.specs.Netlist.{output_count};
ghost use Rattle.model.specs.Read.{read_outputs_of};
ghost use Rattle.netlist_outputs.specs.OutputReading.{output_step, OutputsAre};
ghost use Rattle.model.specs.Returned.{answer_of};

use model::{MAX_COUNT, Refusal};
use record_bytes::inner::{begins_with, u16_at};

// The position after the last output, and the total.
#[derive(Drop)]
pub struct OutputsRead {
    pub at: usize,
    pub total: u64,
}

// An output's net, and the total with it.
#[derive(Drop)]
pub(crate) struct OutputRead {
    pub net: usize,
    pub total: u64,
}

// The outputs, from a position on.
pub fn read_outputs(
    netlist: &[u8],
    from: usize,
    outputs: usize,
    inputs: usize,
    nets: usize,
    counts: &[u64; 512],
) -> Result<OutputsRead, Refusal>
    requires { (from ≤ length netlist.now) × (nets ≤ 512) }
    ensures { OutputsAre result netlist.now inputs counts.now (read_outputs_of outputs inputs nets counts.now 0 0 (drop from netlist.now)) }
{
    let mut low: usize = 0;
    let mut total: u64 = 0;
    for k in 0..outputs {
        let part = &netlist[from + 4 * k..];
        let output = read_output(part, inputs, nets, low, total, counts)?;
        low = output.net + 1;
        total = output.total;
    }
    Ok(OutputsRead {
        at: from + 4 * outputs,
        total,
    })
}

// One output, from the part of the file that begins at its mark. It names a net from `low` to below `nets`; those below `inputs` have no path.
fn read_output(
    part: &[u8],
    inputs: usize,
    nets: usize,
    low: usize,
    total: u64,
    counts: &[u64; 512],
) -> Result<OutputRead, Refusal>
    requires { (nets ≤ 512) × (total ≤ 2 ^ 62) }
    ensures { answer_of result ≡ output_step inputs nets counts.now low total part.now }
{
    let marked = begins_with(part, 4, 0x4F, 0x55);
    if !marked {
        return Err(Refusal::OutputCut);
    }
    let net = u16_at(part, 2);
    if nets <= net {
        return Err(Refusal::OutputNet);
    }
    if net < low {
        return Err(Refusal::OutputNet);
    }
    let count = output_paths(counts, inputs, net);
    if MAX_COUNT - total < count {
        return Err(Refusal::TotalOverLimit);
    }
    Ok(OutputRead {
        net,
        total: total + count,
    })
}

// How many paths end at an output at this net: none at an input, where the output is a wire without a gate.
pub fn output_paths(counts: &[u64; 512], inputs: usize, net: usize) -> u64
    requires { net < 512 }
    ensures { result ≡ output_count inputs counts.now net }
{
    if net < inputs {
        return 0;
    }
    counts[net]
}
