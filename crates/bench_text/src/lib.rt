// The converter from ISCAS .bench text to a netlist file.
#![tactic(auto)]

mod writing;

ghost use Rattle.std.specs.Prelude.{◌≤◌, length};
ghost use Rattle.bench_circuit.specs.Judging.{WordsRoom};
ghost use Rattle.bench_circuit.specs.Ending.{TextHeld};
ghost use Rattle.bench_text.specs.Converting.{ConvertTrue};

use crate::writing::put_netlist;
use bench_circuit::inner::ending::check_end;
pub use bench_circuit::inner::judging::LineRefusal;
use bench_circuit::inner::judging::{NameCounts, judge_text};
use model::Refusal;

// The least bytes of a buffer for a netlist file: a header, 511 gates of 8 pins and 64 outputs.
pub const NETLIST_BYTES: usize = 10484;

// Converts .bench text to a netlist file. A refused call leaves the bytes as they were.
pub fn bench_to_netlist(text: &[u8], netlist: &mut [u8]) -> Result<usize, LineRefusal>
    ensures { ConvertTrue result text.now netlist.old netlist.new }
{
    if netlist.len() < NETLIST_BYTES {
        return Err(LineRefusal {
            why: Refusal::NetlistBufferLength,
            line: 0,
        });
    }
    let mut inputs = [0u64; 128];
    let mut gates = [0u64; 1024];
    let mut outputs = [0u64; 128];
    convert_with(text, netlist, &mut inputs, &mut gates, &mut outputs)
}

// The same, with words for the names of inputs, gates and outputs.
fn convert_with(
    text: &[u8],
    netlist: &mut [u8],
    inputs: &mut [u64],
    gates: &mut [u64],
    outputs: &mut [u64],
) -> Result<usize, LineRefusal>
    requires in_bounds { 10484 ≤ length netlist.old }
    requires words_room { WordsRoom inputs.old gates.old outputs.old }
    ensures { ConvertTrue result text.now netlist.old netlist.new }
{
    let judged = judge_text(text, inputs, gates, outputs);
    match judged {
        Err(LineRefusal { why, line }) => Err(LineRefusal { why, line }),
        Ok(counts) => finish(text, netlist, inputs, gates, outputs, counts),
    }
}

// Checks what is known at the end, and writes the file.
fn finish(
    text: &[u8],
    netlist: &mut [u8],
    inputs: &[u64],
    gates: &[u64],
    outputs: &[u64],
    counts: NameCounts,
) -> Result<usize, LineRefusal>
    requires in_bounds { 10484 ≤ length netlist.old }
    requires text_held { TextHeld text.now inputs.now gates.now outputs.now counts }
    ensures { ConvertTrue result text.now netlist.old netlist.new }
{
    let end = check_end(text, inputs, gates, outputs, counts);
    match end {
        Err(LineRefusal { why, line }) => Err(LineRefusal { why, line }),
        Ok(()) => {
            let length = put_netlist(netlist, text, inputs, gates, outputs, counts);
            Ok(length)
        }
    }
}
