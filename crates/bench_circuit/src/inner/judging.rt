// The lines of a text, judged one after the other; the names that they define as keys in lent words.
ghost use Rattle.std.specs.Prelude.{◌≡◌, ◌+◌, ◌≤◌, length};
ghost use Rattle.bench_lines.specs.LineReading.{part, NameIn};
ghost use Rattle.bench_names.specs.NameNets.{NamesRoom};
ghost use Rattle.bench_circuit.specs.Judging.{InputJudged, OutputJudged, GateJudged};
ghost use Rattle.bench_circuit.specs.Judging.{HeldRoom, WordsRoom, counted_as, LineTrue, TextTrue};

use bench_lines::inner::keys::{find_key, key_at, put_key};
use bench_lines::inner::lines::next_line;
use bench_lines::inner::statements::{GateParts, LineStatement, read_statement};
use bench_names::inner::{net_at, pins_known};
use model::Refusal;
use netlist_pin_counts::pin_count_fits;

// How many inputs, gates and outputs there are.
#[derive(Clone, Copy)]
pub struct NameCounts {
    pub inputs: usize,
    pub gates: usize,
    pub outputs: usize,
}

// Why a text is refused, and the line of the text, counted from 1, that is refused; 0 where it is no line.
#[derive(Drop)]
pub struct LineRefusal {
    pub why: Refusal,
    pub line: usize,
}

// Adds an input, unless its line is refused.
fn add_input(
    line: &[u8],
    from: usize,
    to: usize,
    inputs: &mut [u64],
    input_count: usize,
    gates: &[u64],
    gate_count: usize,
) -> Result<(), Refusal>
    requires name_in { NameIn from to line.now }
    requires names_room { NamesRoom inputs.old input_count gates.now gate_count }
    ensures { InputJudged result (part from to line.now) inputs.old inputs.new
        input_count gates.now gate_count }
{
    let net = net_at(line, from, to, inputs, input_count, gates, gate_count);
    if net < input_count + gate_count {
        return Err(Refusal::BenchName);
    }
    if 64 <= input_count {
        return Err(Refusal::BenchCount);
    }
    if 512 <= input_count + gate_count {
        return Err(Refusal::BenchCount);
    }
    let key = key_at(line, from, to);
    put_key(inputs, input_count, key.low, key.high);
    Ok(())
}

// Adds an output, unless its line is refused.
fn add_output(
    line: &[u8],
    from: usize,
    to: usize,
    outputs: &mut [u64],
    output_count: usize,
) -> Result<(), Refusal>
    requires name_in { NameIn from to line.now }
    requires outputs_len { (length outputs.old ≡ 128) × (output_count ≤ 64) }
    ensures { OutputJudged result (part from to line.now) outputs.old outputs.new
        output_count }
{
    let key = key_at(line, from, to);
    let place = find_key(outputs, output_count, key.low, key.high);
    if place < output_count {
        return Err(Refusal::BenchName);
    }
    if 64 <= output_count {
        return Err(Refusal::BenchCount);
    }
    put_key(outputs, output_count, key.low, key.high);
    Ok(())
}

// Adds a gate, unless its line is refused.
fn add_gate(
    line: &[u8],
    gate: GateParts,
    inputs: &[u64],
    input_count: usize,
    gates: &mut [u64],
    gate_count: usize,
) -> Result<(), Refusal>
    requires name_in { NameIn gate.from gate.to line.now }
    requires at_in_bounds { gate.at ≤ length line.now }
    requires names_room { NamesRoom inputs.now input_count gates.old gate_count }
    ensures { GateJudged result line.now gate inputs.now input_count gates.old
        gates.new gate_count }
{
    let from = gate.from;
    let to = gate.to;
    let net = net_at(line, from, to, inputs, input_count, gates, gate_count);
    if net < input_count + gate_count {
        return Err(Refusal::BenchName);
    }
    let known = pins_known(line, gate.at, inputs, input_count, gates, gate_count);
    if !known {
        return Err(Refusal::BenchName);
    }
    if 511 <= gate_count {
        return Err(Refusal::BenchCount);
    }
    if 512 <= input_count + gate_count {
        return Err(Refusal::BenchCount);
    }
    let fits = pin_count_fits(gate.kind, gate.pins);
    if !fits {
        return Err(Refusal::BenchCount);
    }
    let key = key_at(line, from, to);
    put_key(gates, gate_count, key.low, key.high);
    Ok(())
}

// A line's answer by that to its name, and how many there are if it was added.
fn counted(
    answer: Result<(), Refusal>,
    inputs: usize,
    gates: usize,
    outputs: usize,
) -> Result<NameCounts, Refusal>
    ensures { result ≡ counted_as answer inputs gates outputs }
{
    answer?;
    Ok(NameCounts {
        inputs,
        gates,
        outputs,
    })
}

// Judges a line, and adds what it defines.
fn judge_line(
    line: &[u8],
    inputs: &mut [u64],
    gates: &mut [u64],
    outputs: &mut [u64],
    counts: NameCounts,
) -> Result<NameCounts, Refusal>
    requires { HeldRoom inputs.old gates.old outputs.old counts }
    ensures { LineTrue result line.now counts inputs.old gates.old
        outputs.old inputs.new gates.new outputs.new }
{
    let input_count = counts.inputs;
    let gate_count = counts.gates;
    let output_count = counts.outputs;
    let statement = read_statement(line);
    match statement {
        LineStatement::Blank => Ok(counts),
        LineStatement::Other => Err(Refusal::BenchLine),
        LineStatement::Input { from, to } => {
            let answer = add_input(line, from, to, inputs, input_count, gates, gate_count);
            counted(answer, input_count + 1, gate_count, output_count)
        }
        LineStatement::Output { from, to } => {
            let answer = add_output(line, from, to, outputs, output_count);
            counted(answer, input_count, gate_count, output_count + 1)
        }
        LineStatement::Gate(gate) => {
            let answer = add_gate(line, gate, inputs, input_count, gates, gate_count);
            counted(answer, input_count, gate_count + 1, output_count)
        }
    }
}

// Judges the lines of a text one after the other.
pub fn judge_text(
    text: &[u8],
    inputs: &mut [u64],
    gates: &mut [u64],
    outputs: &mut [u64],
) -> Result<NameCounts, LineRefusal>
    requires { WordsRoom inputs.old gates.old outputs.old }
    ensures { TextTrue result text.now inputs.new gates.new outputs.new }
{
    let mut counts = NameCounts {
        inputs: 0,
        gates: 0,
        outputs: 0,
    };
    let mut before: usize = 0;
    let mut at = 0;
    while at < text.len() {
        let ends = next_line(text, at);
        let stop = ends.stop;
        let line = &text[at..stop];
        let answer = judge_line(line, inputs, gates, outputs, counts);
        match answer {
            Err(why) => {
                return Err(LineRefusal {
                    why,
                    line: before + 1,
                });
            }
            Ok(next) => {
                counts = next;
            }
        }
        at = ends.next;
        before += 1;
    }
    Ok(counts)
}
