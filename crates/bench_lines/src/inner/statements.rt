// The statement of a line.
ghost use Rattle.std.specs.Prelude.{◌≡◌, ◌+◌, ◌≤◌, length};
ghost use Rattle.bench_lines.specs.Text.{place, kind_names, io_names};
ghost use Rattle.bench_lines.specs.LineReading.{part, NameIn, rest_at};
ghost use Rattle.bench_lines.specs.Stating.{at_end_of, PinIs, NamedThen, PinsStated, KindStated, GateStated};
ghost use Rattle.bench_lines.specs.Stating.{IoClosed, IoStated, NameStated, LineStated};

use crate::inner::keys::{find_key, key_at};
use crate::inner::tokens::{NextToken, next_token};

// A gate on its line: its name from a position to another, its kind, the position where its pins begin, and how many they are.
#[derive(Clone, Copy)]
pub struct GateParts {
    pub from: usize,
    pub to: usize,
    pub kind: usize,
    pub at: usize,
    pub pins: usize,
}

// What a line says. A name goes from a position to another.
#[derive(Drop)]
pub enum LineStatement {
    Blank,
    Input { from: usize, to: usize },
    Output { from: usize, to: usize },
    Gate(GateParts),
    Other,
}

// A pin's name, with the position after the sign that follows it, and whether that is a comma.
#[derive(Drop)]
pub struct PinPart {
    pub from: usize,
    pub to: usize,
    pub next: usize,
    pub more: bool,
}

// Whether nothing but spaces is left.
fn at_end(line: &[u8], at: usize) -> bool
    requires { at ≤ length line.now }
    ensures { result ≡ at_end_of (rest_at at line.now) }
{
    let token = next_token(line, at);
    match token {
        NextToken::End => true,
        NextToken::Sign { byte: _, next: _ } => false,
        NextToken::Name { from: _, to: _ } => false,
    }
}

// The sign after the name of a pin.
fn pin_sign(line: &[u8], from: usize, to: usize) -> Option<PinPart>
    requires { NameIn from to line.now }
    ensures { NamedThen result from to line.now }
{
    let token = next_token(line, to);
    match token {
        NextToken::End => None,
        NextToken::Name { from: _, to: _ } => None,
        NextToken::Sign { byte, next } => {
            if byte == 0x2C {
                return Some(PinPart {
                    from,
                    to,
                    next,
                    more: true,
                });
            }
            if byte != 0x29 {
                return None;
            }
            let ended = at_end(line, next);
            if !ended {
                return None;
            }
            Some(PinPart {
                from,
                to,
                next,
                more: false,
            })
        }
    }
}

// One pin, from a position on.
pub fn read_pin(line: &[u8], at: usize) -> Option<PinPart>
    requires { at ≤ length line.now }
    ensures { PinIs result at line.now }
{
    let token = next_token(line, at);
    match token {
        NextToken::End => None,
        NextToken::Sign { byte: _, next: _ } => None,
        NextToken::Name { from, to } => pin_sign(line, from, to),
    }
}

// A gate's pins up to the closing bracket, after its name and kind.
fn read_pins(line: &[u8], from: usize, to: usize, kind: usize, at: usize) -> LineStatement
    requires name_in { NameIn from to line.now }
    requires le_kind { (1 ≤ kind) × (kind ≤ 8) × (at ≤ length line.now) }
    ensures { PinsStated result from to kind at line.now }
{
    let mut place = at;
    let mut pins: usize = 0;
    let mut more = true;
    while more {
        let pin = read_pin(line, place);
        match pin {
            None => {
                return LineStatement::Other;
            }
            Some(
                PinPart {
                    from: _,
                    to: _,
                    next,
                    more: again,
                },
            ) => {
                place = next;
                more = again;
            }
        }
        pins += 1;
    }
    LineStatement::Gate(GateParts {
        from,
        to,
        kind,
        at,
        pins,
    })
}

// The place of a name among the kinds, 8 if it is none.
fn kind_place(line: &[u8], from: usize, to: usize) -> usize
    requires { NameIn from to line.now }
    ensures { result ≡ place (part from to line.now) kind_names }
{
    let kinds = [
        0x46465542u64,
        0,
        0x544F4E,
        0,
        0x444E41,
        0,
        0x444E414E,
        0,
        0x524F,
        0,
        0x524F4E,
        0,
        0x524F58,
        0,
        0x524F4E58,
        0,
    ];
    let key = key_at(line, from, to);
    find_key(&kinds, 8, key.low, key.high)
}

// The place of a name among INPUT and OUTPUT, 2 if it is neither.
fn io_place(line: &[u8], from: usize, to: usize) -> usize
    requires { NameIn from to line.now }
    ensures { result ≡ place (part from to line.now) io_names }
{
    let names = [0x5455504E49u64, 0, 0x54555054554F, 0];
    let key = key_at(line, from, to);
    find_key(&names, 2, key.low, key.high)
}

// A gate's kind and pins, after its name and the kind's name.
fn gate_kind(line: &[u8], from: usize, to: usize, kind_from: usize, kind_to: usize) -> LineStatement
    requires name_in { NameIn from to line.now }
    requires name_in_2 { NameIn kind_from kind_to line.now }
    ensures { KindStated result from to kind_from kind_to line.now }
{
    let token = next_token(line, kind_to);
    match token {
        NextToken::End => LineStatement::Other,
        NextToken::Name { from: _, to: _ } => LineStatement::Other,
        NextToken::Sign { byte, next } => {
            if byte != 0x28 {
                return LineStatement::Other;
            }
            let kind = kind_place(line, kind_from, kind_to);
            if 8 <= kind {
                return LineStatement::Other;
            }
            read_pins(line, from, to, kind + 1, next)
        }
    }
}

// What follows a name and `=`.
fn read_gate(line: &[u8], from: usize, to: usize, at: usize) -> LineStatement
    requires name_in { NameIn from to line.now }
    requires at_in_bounds { at ≤ length line.now }
    ensures { GateStated result from to at line.now }
{
    let token = next_token(line, at);
    match token {
        NextToken::End => LineStatement::Other,
        NextToken::Sign { byte: _, next: _ } => LineStatement::Other,
        NextToken::Name {
            from: kind_from,
            to: kind_to,
        } => gate_kind(line, from, to, kind_from, kind_to),
    }
}

// An input or output, after INPUT or OUTPUT, `(` and a name.
fn close_io(line: &[u8], word_from: usize, word_to: usize, from: usize, to: usize) -> LineStatement
    requires name_in { NameIn word_from word_to line.now }
    requires name_in_2 { NameIn from to line.now }
    ensures { IoClosed result word_from word_to from to line.now }
{
    let token = next_token(line, to);
    match token {
        NextToken::End => LineStatement::Other,
        NextToken::Name { from: _, to: _ } => LineStatement::Other,
        NextToken::Sign { byte, next } => {
            if byte != 0x29 {
                return LineStatement::Other;
            }
            let ended = at_end(line, next);
            if !ended {
                return LineStatement::Other;
            }
            let io = io_place(line, word_from, word_to);
            if io == 0 {
                return LineStatement::Input { from, to };
            }
            if io == 1 {
                return LineStatement::Output { from, to };
            }
            LineStatement::Other
        }
    }
}

// What follows a name and `(`.
fn read_io(line: &[u8], word_from: usize, word_to: usize, at: usize) -> LineStatement
    requires name_in { NameIn word_from word_to line.now }
    requires at_in_bounds { at ≤ length line.now }
    ensures { IoStated result word_from word_to at line.now }
{
    let token = next_token(line, at);
    match token {
        NextToken::End => LineStatement::Other,
        NextToken::Sign { byte: _, next: _ } => LineStatement::Other,
        NextToken::Name { from, to } => close_io(line, word_from, word_to, from, to),
    }
}

// What a line that begins with a name says.
fn read_named(line: &[u8], from: usize, to: usize) -> LineStatement
    requires { NameIn from to line.now }
    ensures { NameStated result from to line.now }
{
    let token = next_token(line, to);
    match token {
        NextToken::End => LineStatement::Other,
        NextToken::Name { from: _, to: _ } => LineStatement::Other,
        NextToken::Sign { byte, next } => {
            if byte == 0x28 {
                return read_io(line, from, to, next);
            }
            if byte == 0x3D {
                return read_gate(line, from, to, next);
            }
            LineStatement::Other
        }
    }
}

// What a line says.
pub fn read_statement(line: &[u8]) -> LineStatement
    ensures { LineStated result line.now }
{
    let token = next_token(line, 0);
    match token {
        NextToken::End => LineStatement::Blank,
        NextToken::Sign { byte, next: _ } => {
            if byte == 0x23 {
                return LineStatement::Blank;
            }
            LineStatement::Other
        }
        NextToken::Name { from, to } => read_named(line, from, to),
    }
}
