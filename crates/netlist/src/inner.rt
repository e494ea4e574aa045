// The tables of a legal netlist, and the readers of the parts of its file, for our own crates.
ghost use Rattle.std.specs.Prelude.{◌≡◌, ◌+◌, ◌-◌, ◌*◌, ◌≤◌, ◌<◌, length, get_or, drop, replicate};
ghost use Rattle.model.specs.Calls.{padded};
ghost use Rattle.netlist_gates.specs.GateReading.{zeros};
ghost use Rattle.netlist.specs.Answers.{LoadTrue, LoadedTrue};
ghost use Rattle.netlist.specs.Reading.{HeaderRead};
ghost use Rattle.netlist.specs.Tables.{pin_in, gate_part_of, output_in};

use crate::header::read_header;
use model::Refusal;
use netlist_gates::inner::read_gates;
use netlist_outputs::inner::{OutputsRead, read_outputs};
use record_bytes::inner::{u16_at, wide_word};

// How many inputs, nets and outputs a legal netlist has.
#[derive(Clone, Copy)]
pub struct Shape {
    pub inputs: usize,
    pub nets: usize,
    pub outputs: usize,
}

// What a legal netlist whose tables are in the arrays has besides.
#[derive(Drop)]
pub struct LegalNetlist {
    pub shape: Shape,
    pub total: u64,
}

// The tables of a legal netlist by value.
#[derive(Clone, Copy)]
pub struct Loaded {
    pub shape: Shape,
    pub total: u64,
    pub counts: [u64; 512],
    pub positions: [u16; 512],
}

// Reads a netlist and fills in the count of each net and the position of the record of the gate that drives it.
pub fn load(
    netlist: &[u8],
    counts: &mut [u64; 512],
    positions: &mut [u16; 512],
) -> Result<LegalNetlist, Refusal>
    requires { (counts.old ≡ zeros) × (positions.old ≡ zeros) }
    ensures { LoadTrue result netlist.now counts.new positions.new }
{
    let header = read_header(netlist)?;
    load_body(
        netlist,
        header.inputs,
        header.gates,
        header.outputs,
        counts,
        positions,
    )
}

// Fills in the counts of the inputs.
fn set_inputs(counts: &mut [u64; 512], inputs: usize)
    requires { (inputs ≤ 512) × (counts.old ≡ zeros) }
    ensures { counts.new ≡ padded (replicate inputs 1) }
{
    for i in 0..inputs {
        counts[i] = 1;
    }
}

// What follows a header that passed.
fn load_body(
    netlist: &[u8],
    inputs: usize,
    gates: usize,
    outputs: usize,
    counts: &mut [u64; 512],
    positions: &mut [u16; 512],
) -> Result<LegalNetlist, Refusal>
    requires { HeaderRead netlist.now inputs gates outputs × (counts.old ≡ zeros) × (positions.old ≡ zeros) }
    ensures { LoadTrue result netlist.now counts.new positions.new }
{
    set_inputs(counts, inputs);
    let at = read_gates(netlist, inputs, gates, counts, positions)?;
    let nets = inputs + gates;
    let last = read_outputs(netlist, at, outputs, inputs, nets, counts)?;
    if last.at < netlist.len() {
        return Err(Refusal::BytesLeftOver);
    }
    let shape = Shape {
        inputs,
        nets,
        outputs,
    };
    Ok(LegalNetlist {
        shape,
        total: last.total,
    })
}

// The tables of a netlist by value, for those that keep them over several calls.
pub fn load_by_value(netlist: &[u8]) -> Result<Loaded, Refusal>
    ensures { LoadedTrue result netlist.now }
{
    let mut counts = [0u64; 512];
    let mut positions = [0u16; 512];
    let legal = load(netlist, &mut counts, &mut positions)?;
    Ok(Loaded {
        shape: legal.shape,
        total: legal.total,
        counts,
        positions,
    })
}

// The part of the file that begins at the record of the gate that drives `net`.
pub fn gate_part<'a>(netlist: &'a [u8], positions: &[u16; 512], net: usize) -> &'a [u8]
    requires { (net < 512) × (get_or positions.now net 0 ≤ length netlist.now) }
    ensures { result.now ≡ gate_part_of netlist.now positions.now net }
{
    let at = wide_word(positions[net]);
    &netlist[at..]
}

// The net at a pin of the gate's record with which the part begins.
pub fn pin_net(part: &[u8], pin: usize) -> usize
    requires { 4 + 2 * pin + 2 ≤ length part.now }
    ensures { result ≡ pin_in part.now pin }
{
    u16_at(part, 4 + 2 * pin)
}

// The records of the outputs, the last bytes of the file.
pub fn outputs_part(netlist: &[u8], outputs: usize) -> &[u8]
    requires { (outputs ≤ 64) × (4 * outputs ≤ length netlist.now) }
    ensures { result.now ≡ drop (length netlist.now - 4 * outputs) netlist.now }
{
    &netlist[netlist.len() - 4 * outputs..]
}

// The net of the output's record with which the part begins.
pub fn output_net(part: &[u8]) -> usize
    requires { 4 ≤ length part.now }
    ensures { result ≡ output_in part.now }
{
    u16_at(part, 2)
}
