// The netlist file of a circuit, written from the text and from the keys of its names.
ghost use Rattle.std.specs.Prelude.{◌≡◌, true, ◌+◌, ◌*◌, ◌≤◌, length};
ghost use Rattle.std.proofs.lemmas.List.Edits.{sets};
ghost use Rattle.model.specs.Encode.{header_bytes};
ghost use Rattle.bench_lines.specs.Text.{tokens_of, statement_of, lines_of};
ghost use Rattle.bench_names.specs.NameNets.{NamesRoom};
ghost use Rattle.bench_circuit.specs.Ending.{TextSound};
ghost use Rattle.bench_text.specs.Converting.{FileWritten};
ghost use Rattle.bench_text.specs.FileWriting.{PinsThere, PinsPut, GatePut, FewPins, AllFewPins, bytes_of_line};
ghost use Rattle.bench_text.specs.FileWriting.{bytes_of_text};
ghost use Rattle.bench_outputs.specs.OutputWriting.{RoomFor, BytesPut};

use bench_circuit::inner::judging::NameCounts;
use bench_lines::inner::lines::next_line;
use bench_lines::inner::statements::{GateParts, LineStatement, PinPart, read_pin, read_statement};
use bench_names::inner::net_at;
use bench_outputs::inner::put_outputs;
use record_bytes::inner::put;

// Writes the nets of a gate's pins, which begin at a position of its line.
fn put_pins(
    out: &mut [u8],
    to_place: usize,
    line: &[u8],
    gate: GateParts,
    inputs: &[u64],
    input_count: usize,
    gates: &[u64],
    gate_count: usize,
)
    requires names_room { NamesRoom inputs.now input_count gates.now gate_count }
    requires pins_there { PinsThere line.now gate.at gate.pins }
    requires pins_in_bounds { to_place + 2 * gate.pins ≤ length out.old }
    ensures { PinsPut out.old out.new to_place line.now gate.at
        inputs.now input_count gates.now gate_count }
{
    let mut write = to_place;
    let mut place = gate.at;
    let mut more = true;
    while more {
        let pin = read_pin(line, place);
        match pin {
            None => {
                return;
            }
            Some(
                PinPart {
                    from,
                    to,
                    next,
                    more: again,
                },
            ) => {
                let net = net_at(line, from, to, inputs, input_count, gates, gate_count);
                put(out, write, 2, net as u64);
                place = next;
                more = again;
            }
        }
        write += 2;
    }
}

// Writes a gate's record.
fn put_gate(
    out: &mut [u8],
    to_place: usize,
    line: &[u8],
    gate: GateParts,
    inputs: &[u64],
    input_count: usize,
    gates: &[u64],
    gate_count: usize,
)
    requires names_room { NamesRoom inputs.now input_count gates.now gate_count }
    requires pins_there { PinsThere line.now gate.at gate.pins }
    requires pins_in_bounds { (to_place + 4 + 2 * gate.pins ≤ length out.old) × (gate.kind ≤ 8) × (gate.pins ≤ 8) }
    ensures { GatePut out.old out.new to_place line.now gate
        inputs.now input_count gates.now gate_count }
{
    put(out, to_place, 2, 0x5447);
    put(out, to_place + 2, 1, gate.kind as u64);
    put(out, to_place + 3, 1, gate.pins as u64);
    put_pins(
        out,
        to_place + 4,
        line,
        gate,
        inputs,
        input_count,
        gates,
        gate_count,
    );
}

// Writes the record of a line's gate, if it has one; the place after it.
fn put_line(
    out: &mut [u8],
    to_place: usize,
    line: &[u8],
    inputs: &[u64],
    input_count: usize,
    gates: &[u64],
    gate_count: usize,
) -> usize
    requires names_room { NamesRoom inputs.now input_count gates.now gate_count }
    requires few_pins { FewPins (statement_of (tokens_of line.now)) }
    requires room_for { RoomFor to_place
        (bytes_of_line inputs.now input_count gates.now gate_count line.now) out.old }
    ensures { BytesPut result out.old out.new to_place
        (bytes_of_line inputs.now input_count gates.now gate_count line.now) }
{
    let statement = read_statement(line);
    match statement {
        LineStatement::Blank => to_place,
        LineStatement::Other => to_place,
        LineStatement::Input { from: _, to: _ } => to_place,
        LineStatement::Output { from: _, to: _ } => to_place,
        LineStatement::Gate(gate) => {
            put_gate(
                out,
                to_place,
                line,
                gate,
                inputs,
                input_count,
                gates,
                gate_count,
            );
            to_place + 4 + 2 * gate.pins
        }
    }
}

// Writes the records of the gates of a text; the place after them.
pub(crate) fn put_lines(
    out: &mut [u8],
    to_place: usize,
    text: &[u8],
    inputs: &[u64],
    input_count: usize,
    gates: &[u64],
    gate_count: usize,
) -> usize
    requires names_room { NamesRoom inputs.now input_count gates.now gate_count }
    requires all_few_pins { AllFewPins (lines_of text.now) }
    requires room_for { RoomFor to_place
        (bytes_of_text inputs.now input_count gates.now gate_count text.now) out.old }
    ensures { BytesPut result out.old out.new to_place
        (bytes_of_text inputs.now input_count gates.now gate_count text.now) }
{
    let mut write = to_place;
    let mut at = 0;
    while at < text.len() {
        let ends = next_line(text, at);
        let stop = ends.stop;
        let line = &text[at..stop];
        write = put_line(out, write, line, inputs, input_count, gates, gate_count);
        at = ends.next;
    }
    write
}

// Writes the header.
pub(crate) fn put_header(out: &mut [u8], counts: NameCounts)
    requires { 8 ≤ length out.old }
    ensures { out.new ≡ sets out.old 0
        (header_bytes counts.inputs counts.gates counts.outputs) }
{
    put(out, 0, 2, 0x4C4E);
    put(out, 2, 2, counts.inputs as u64);
    put(out, 4, 2, counts.gates as u64);
    put(out, 6, 2, counts.outputs as u64);
}

// Writes the netlist file of a text that is sound, and gives its length.
pub(crate) fn put_netlist(
    netlist: &mut [u8],
    text: &[u8],
    inputs: &[u64],
    gates: &[u64],
    outputs: &[u64],
    counts: NameCounts,
) -> usize
    requires in_bounds { 10484 ≤ length netlist.old }
    requires text_sound { TextSound text.now inputs.now gates.now outputs.now counts }
    ensures { FileWritten result text.now netlist.old netlist.new }
{
    let i = counts.inputs;
    let g = counts.gates;
    let o = counts.outputs;
    put_header(netlist, counts);
    let after = put_lines(netlist, 8, text, inputs, i, gates, g);
    let next = put_outputs(netlist, after, inputs, i, 0, outputs, o);
    put_outputs(netlist, next, gates, g, i, outputs, o)
}
