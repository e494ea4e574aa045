// The gate records of a netlist file, each read from the part that begins at its mark, with the counts of the nets that the gates drive.
// Each caller proves what a function requires.
ghost use Rattle.std.specs.Prelude.{◌≡◌, true, ◌+◌, ◌*◌, ◌≤◌, length, replicate};
ghost use Rattle.model.specs.Calls.{padded};
ghost use Rattle.netlist_gates.specs.GateReading.{zeros, gate_step, pins_lower_of, pin_sum_of, SumIs, GatesAre};
ghost use Rattle.model.specs.Returned.{answer_of};

use model::{MAX_COUNT, Refusal};
use netlist_pin_counts::pin_count_fits;
use record_bytes::inner::{begins_with, u16_at, wide};

// A gate's count and the length of its record.
#[derive(Drop)]
pub(crate) struct GateSize {
    pub count: u64,
    pub size: usize,
}

// The gates, from position 8 on; the count of each and the position of its record go into the arrays.
pub fn read_gates(
    netlist: &[u8],
    inputs: usize,
    gates: usize,
    counts: &mut [u64; 512],
    positions: &mut [u16; 512],
) -> Result<usize, Refusal>
    requires { (8 ≤ length netlist.now) × (inputs + gates ≤ 512) × (counts.old ≡ padded (replicate inputs 1)) × (positions.old ≡ zeros) }
    ensures { GatesAre result counts.new positions.new netlist.now inputs gates }
{
    let mut at: usize = 8;
    for net in inputs..inputs + gates {
        let part = &netlist[at..];
        let gate = read_gate(part, net, counts)?;
        counts[net] = gate.count;
        positions[net] = at as u16;
        at += gate.size;
    }
    Ok(at)
}

// One gate, from the part of the file that begins at its mark. It drives `net`.
fn read_gate(part: &[u8], net: usize, counts: &[u64; 512]) -> Result<GateSize, Refusal>
    requires { net ≤ 512 }
    ensures { answer_of result ≡ gate_step net counts.now part.now }
{
    let marked = begins_with(part, 4, 0x47, 0x54);
    if !marked {
        return Err(Refusal::GateCut);
    }
    let kind = wide(part[2]);
    let pins = wide(part[3]);
    if kind < 1 {
        return Err(Refusal::GateKind);
    }
    if 8 < kind {
        return Err(Refusal::GateKind);
    }
    let fits = pin_count_fits(kind, pins);
    if !fits {
        return Err(Refusal::PinCount);
    }
    let size = 4 + 2 * pins;
    if part.len() < size {
        return Err(Refusal::GateCut);
    }
    let lower = pins_lower(part, pins, net);
    if !lower {
        return Err(Refusal::PinNotLower);
    }
    let sum = pin_sum(part, pins, counts);
    match sum {
        Some(count) => Ok(GateSize { count, size }),
        None => Err(Refusal::CountOverLimit),
    }
}

// Whether both pins of a gate of two name a net lower than the gate's.
fn two_lower(part: &[u8], net: usize) -> bool
    requires { 8 ≤ length part.now }
    ensures { result ≡ pins_lower_of net 2 4 part.now }
{
    let first = u16_at(part, 4);
    let second = u16_at(part, 6);
    if net <= first {
        return false;
    }
    second < net
}

// Whether every pin names a net lower than the gate's. Most gates have two pins: of these without a loop.
fn pins_lower(part: &[u8], pins: usize, net: usize) -> bool
    requires { 4 + 2 * pins ≤ length part.now }
    ensures { result ≡ pins_lower_of net pins 4 part.now }
{
    if pins == 2 {
        return two_lower(part, net);
    }
    for k in 0..pins {
        let pin = u16_at(part, 4 + 2 * k);
        if net <= pin {
            return false;
        }
    }
    true
}

// The sum of the counts of the nets at the pins of a gate of two, unless it is over the limit.
fn two_sum(part: &[u8], counts: &[u64; 512]) -> Option<u64>
    requires { (8 ≤ length part.now) × (pins_lower_of 512 2 4 part.now ≡ true) }
    ensures { SumIs result (pin_sum_of counts.now 2 4 part.now) }
{
    let first = counts[u16_at(part, 4)];
    let second = counts[u16_at(part, 6)];
    if MAX_COUNT < first {
        return None;
    }
    if MAX_COUNT - first < second {
        return None;
    }
    Some(first + second)
}

// The sum of the counts of the nets at the pins, unless it is over the limit. Again, two pins are summed without a loop. It goes by what is left of the limit,
// so that no turn makes the limit anew.
fn pin_sum(part: &[u8], pins: usize, counts: &[u64; 512]) -> Option<u64>
    requires { (4 + 2 * pins ≤ length part.now) × (pins_lower_of 512 pins 4 part.now ≡ true) }
    ensures { SumIs result (pin_sum_of counts.now pins 4 part.now) }
{
    if pins == 2 {
        return two_sum(part, counts);
    }
    let mut room = MAX_COUNT;
    for k in 0..pins {
        let pin = u16_at(part, 4 + 2 * k);
        let count = counts[pin];
        if room < count {
            return None;
        }
        room -= count;
    }
    Some(MAX_COUNT - room)
}
