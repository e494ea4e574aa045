// Parts of a path's lines, put into a buffer from a place on; each returns the place after it.
ghost use Rattle.std.specs.Prelude.{◌≡◌, ◌+◌, ◌*◌, ◌≤◌, ◌<◌, length, get_or};
ghost use Rattle.model.specs.Read.{kind_of};
ghost use Rattle.netlist.specs.Tables.{kind_in, pin_in};
ghost use Rattle.text_line.specs.Decimal.{decimal_text};
ghost use Rattle.text_buffer.specs.Written.{Written};
ghost use Rattle.bench_net_names.specs.Table.{name_in_of};
ghost use Rattle.path_lines.specs.PathText.{in_brackets, bracketed, net_text, kind_text, gate_start, gate_end, gate_line, input_line, output_line};

use bench_net_names::put_name;
use netlist::inner::pin_net;
use text_line::inner::{put_number, put_text};

// A text.
fn put_part(out: &mut [u8], at: usize, part: &[u8]) -> usize
    requires { at + length part.now ≤ length out.old }
    ensures { Written out.old out.new at part.now result × (result ≡ at + length part.now) }
{
    put_text(out, at, part)
}

// A number.
fn put_decimal(out: &mut [u8], at: usize, number: usize) -> usize
    requires { at + 20 ≤ length out.old }
    ensures { Written out.old out.new at (decimal_text number) result × (result ≤ at + 20) }
{
    put_number(out, at, number as u64)
}

// A text in brackets, after a space.
fn put_in_brackets(out: &mut [u8], at: usize, text: &[u8]) -> usize
    requires { at + length text.now + 3 ≤ length out.old }
    ensures { Written out.old out.new at (in_brackets text.now) result × (result ≡ at + length text.now + 3) }
{
    let inside = put_part(out, at, b" (");
    let end = put_part(out, inside, text);
    put_part(out, end, b")")
}

// The name of a net in brackets, after a space; nothing where it has no name.
fn put_bracketed(out: &mut [u8], at: usize, names: &[u64], net: usize) -> usize
    requires { at + 19 ≤ length out.old }
    ensures { Written out.old out.new at (bracketed (name_in_of names.now net)) result × (result ≤ at + 19) }
{
    let mut name = [0u8; 16];
    let bytes = put_name(names, net, &mut name);
    if bytes == 0 {
        return at;
    }
    put_in_brackets(out, at, &name[..bytes])
}

// A net: its number, and its name.
fn put_net(out: &mut [u8], at: usize, names: &[u64], net: usize) -> usize
    requires { at + 39 ≤ length out.old }
    ensures { Written out.old out.new at (net_text (name_in_of names.now) net) result × (result ≤ at + 39) }
{
    let end = put_decimal(out, at, net);
    put_bracketed(out, end, names, net)
}

// The name of a kind of gate.
fn put_kind(out: &mut [u8], at: usize, kind: u8) -> usize
    requires at_in_bounds { at + 6 ≤ length out.old }
    requires le_kind { (1 ≤ kind) × (kind ≤ 8) }
    ensures { Written out.old out.new at (kind_text (kind_of kind)) result × (result ≤ at + 6) }
{
    match kind {
        1 => put_part(out, at, b"BUFFER"),
        2 => put_part(out, at, b"NOT"),
        3 => put_part(out, at, b"AND"),
        4 => put_part(out, at, b"NAND"),
        5 => put_part(out, at, b"OR"),
        6 => put_part(out, at, b"NOR"),
        7 => put_part(out, at, b"XOR"),
        _ => put_part(out, at, b"XNOR"),
    }
}

// The start of a gate's line: the net that it drives, and its kind.
fn put_gate_start(out: &mut [u8], at: usize, names: &[u64], net: usize, kind: u8) -> usize
    requires at_in_bounds { at + 51 ≤ length out.old }
    requires le_kind { (1 ≤ kind) × (kind ≤ 8) }
    ensures { Written out.old out.new at (gate_start (name_in_of names.now) net (kind_of kind)) result × (result ≤ at + 51) }
{
    let first = put_part(out, at, b"net ");
    let colon = put_net(out, first, names, net);
    let second = put_part(out, colon, b": ");
    put_kind(out, second, kind)
}

// The end of a gate's line: the pin taken, and the net at that pin.
fn put_gate_end(out: &mut [u8], at: usize, names: &[u64], pin: usize, next: usize) -> usize
    requires { at + 76 ≤ length out.old }
    ensures { Written out.old out.new at (gate_end (name_in_of names.now) pin next) result × (result ≤ at + 76) }
{
    let number = put_part(out, at, b", pin ");
    let from = put_decimal(out, number, pin);
    let second = put_part(out, from, b" from net ");
    let end = put_net(out, second, names, next);
    put_part(out, end, b"\n")
}

// The line of a gate, with whose record a part of the netlist begins, for the net that it drives and the pin taken.
pub(crate) fn put_gate(
    out: &mut [u8],
    at: usize,
    names: &[u64],
    part: &[u8],
    net: usize,
    pin: usize,
) -> usize
    requires at_in_bounds { at + 127 ≤ length out.old }
    requires pin_in_bounds { 4 + 2 * pin + 2 ≤ length part.now }
    requires bound { (1 ≤ kind_in part.now) × (kind_in part.now ≤ 8) }
    ensures { Written out.old out.new at
        (gate_line (name_in_of names.now) net (kind_of (kind_in part.now)) pin (pin_in part.now pin)) result × (result ≤ at + 127) }
{
    let next = pin_net(part, pin);
    let middle = put_gate_start(out, at, names, net, part[2]);
    put_gate_end(out, middle, names, pin, next)
}

// The line of the input at which a path begins.
pub(crate) fn put_input(out: &mut [u8], at: usize, names: &[u64], net: usize) -> usize
    requires { at + 127 ≤ length out.old }
    ensures { Written out.old out.new at (input_line (name_in_of names.now) net) result }
{
    let first = put_part(out, at, b"net ");
    let colon = put_net(out, first, names, net);
    put_part(out, colon, b": input\n")
}

// The line of an output at the start of a buffer: its place and its net.
pub(crate) fn put_output(out: &mut [u8], names: &[u64], place: usize, net: usize) -> usize
    requires { 127 ≤ length out.old }
    ensures { Written out.old out.new 0 (output_line (name_in_of names.now) place net) result × (result ≤ 127) }
{
    let first = put_part(out, 0, b"output ");
    let colon = put_decimal(out, first, place);
    let second = put_part(out, colon, b": net ");
    let end = put_net(out, second, names, net);
    put_part(out, end, b"\n")
}
