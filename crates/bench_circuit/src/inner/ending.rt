// What is judged at the end of a text: each output's name is defined, and there is an input and an output.
ghost use Rattle.std.specs.Prelude.{◌≡◌, ◌*◌, ◌≤◌, length};
ghost use Rattle.bench_names.specs.NameNets.{NamesRoom};
ghost use Rattle.bench_circuit.specs.Ending.{pairs_known, OutputTold, LineTold, TextHeld, EndTrue};

use crate::inner::judging::{LineRefusal, NameCounts};
use bench_lines::inner::lines::next_line;
use bench_lines::inner::statements::{LineStatement, read_statement};
use bench_names::inner::{net_at, net_of_key};
use model::Refusal;

// Whether the names of all outputs are defined.
fn outputs_known(
    inputs: &[u64],
    input_count: usize,
    gates: &[u64],
    gate_count: usize,
    outputs: &[u64],
    output_count: usize,
) -> bool
    requires names_room { NamesRoom inputs.now input_count gates.now gate_count }
    requires output_count_in_bounds { 2 * output_count ≤ length outputs.now }
    ensures { result ≡ pairs_known inputs.now input_count gates.now gate_count
        outputs.now output_count 0 }
{
    let nets = input_count + gate_count;
    for k in 0..output_count {
        let low = outputs[2 * k];
        let high = outputs[2 * k + 1];
        let net = net_of_key(low, high, inputs, input_count, gates, gate_count);
        if nets <= net {
            return false;
        }
    }
    true
}

// Whether a line is no OUTPUT line, or its name is defined.
fn output_defined(
    line: &[u8],
    inputs: &[u64],
    input_count: usize,
    gates: &[u64],
    gate_count: usize,
) -> bool
    requires { NamesRoom inputs.now input_count gates.now gate_count }
    ensures { OutputTold result line.now inputs.now input_count gates.now
        gate_count }
{
    let statement = read_statement(line);
    match statement {
        LineStatement::Blank => true,
        LineStatement::Other => true,
        LineStatement::Input { from: _, to: _ } => true,
        LineStatement::Gate(_) => true,
        LineStatement::Output { from, to } => {
            let net = net_at(line, from, to, inputs, input_count, gates, gate_count);
            net < input_count + gate_count
        }
    }
}

// The number of the first OUTPUT line, counted from 1, whose name is not defined; 0 if there is none.
fn undefined_line(
    text: &[u8],
    inputs: &[u64],
    input_count: usize,
    gates: &[u64],
    gate_count: usize,
) -> usize
    requires { NamesRoom inputs.now input_count gates.now gate_count }
    ensures { LineTold result text.now inputs.now input_count gates.now
        gate_count }
{
    let mut before: usize = 0;
    let mut at = 0;
    while at < text.len() {
        let ends = next_line(text, at);
        let stop = ends.stop;
        let line = &text[at..stop];
        let defined = output_defined(line, inputs, input_count, gates, gate_count);
        if !defined {
            return before + 1;
        }
        at = ends.next;
        before += 1;
    }
    0
}

// Judges a text whose lines were all taken.
pub fn check_end(
    text: &[u8],
    inputs: &[u64],
    gates: &[u64],
    outputs: &[u64],
    counts: NameCounts,
) -> Result<(), LineRefusal>
    requires { TextHeld text.now inputs.now gates.now outputs.now counts }
    ensures { EndTrue result text.now inputs.now gates.now outputs.now
        counts }
{
    let i = counts.inputs;
    let g = counts.gates;
    let o = counts.outputs;
    let known = outputs_known(inputs, i, gates, g, outputs, o);
    if !known {
        let line = undefined_line(text, inputs, i, gates, g);
        return Err(LineRefusal {
            why: Refusal::BenchName,
            line,
        });
    }
    if i < 1 {
        return Err(LineRefusal {
            why: Refusal::BenchCount,
            line: 0,
        });
    }
    if o < 1 {
        return Err(LineRefusal {
            why: Refusal::BenchCount,
            line: 0,
        });
    }
    Ok(())
}
