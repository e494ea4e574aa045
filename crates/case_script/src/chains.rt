// Chains of gates for the netlist, which would be long in hexadecimal.
use crate::numbers::{Length, Numbers, are, length_of, number_at, wrong};

// The bytes of the longest chain: 512 gates of 4 + 2 * 8 bytes.
const CHAIN_BYTES: usize = 10240;

// Writes a byte at a place; the place after it. Past the end nothing is written.
fn put_byte(cells: &mut [u64], at: usize, byte: u64) -> usize {
    if cells.len() <= at {
        return at;
    }
    cells[at] = byte % 256;
    at + 1
}

// Writes a field of two bytes, low byte first.
fn put_field(cells: &mut [u64], at: usize, field: u64) -> usize {
    let next = put_byte(cells, at, field);
    put_byte(cells, next, field / 256)
}

// Writes so many pins of one net.
fn put_pins(cells: &mut [u64], from: usize, pins: u64, net: u64) -> usize {
    let mut at = from;
    for _ in 0..pins {
        at = put_field(cells, at, net);
    }
    at
}

// Writes a gate's record: 47 54, kind, pin count, and all pins from one net.
fn put_gate(cells: &mut [u64], at: usize, kind: u64, pins: u64, net: u64) -> usize {
    let mark = put_field(cells, at, 0x5447);
    let head = put_field(cells, mark, 256 * (pins % 256) + kind % 256);
    put_pins(cells, head, pins, net)
}

// Writes so many gates, each with all pins from the net before; those of the first are from the net given.
fn put_gates(cells: &mut [u64], from: usize, gates: u64, kind: u64, pins: u64, net: u64) -> usize {
    let mut at = from;
    let mut feeding = net;
    for _ in 0..gates {
        at = put_gate(cells, at, kind, pins, feeding);
        feeding = feeding % 65536 + 1;
    }
    at
}

// Whether the numbers of a chain fit their fields: gates, kind, pins, net.
fn fit(numbers: Numbers) -> bool {
    if 512 < number_at(numbers, 0) {
        return false;
    }
    if 255 < number_at(numbers, 1) {
        return false;
    }
    if 8 < number_at(numbers, 2) {
        return false;
    }
    number_at(numbers, 3) < 1024
}

// Adds a chain to the netlist, where its numbers fit and there is space for the longest: gates, kind, pins, and the net of the first gate's pins.
pub fn add_chain(cells: &mut [u64], length: usize, numbers: Numbers) -> Length {
    if cells.len() < CHAIN_BYTES {
        return wrong();
    }
    if cells.len() - CHAIN_BYTES < length {
        return wrong();
    }
    if !are(numbers, 4) {
        return wrong();
    }
    if !fit(numbers) {
        return wrong();
    }
    let gates = number_at(numbers, 0);
    let kind = number_at(numbers, 1);
    let pins = number_at(numbers, 2);
    let net = number_at(numbers, 3);
    length_of(put_gates(cells, length, gates, kind, pins, net))
}
