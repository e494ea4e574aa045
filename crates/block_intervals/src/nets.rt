// The runs of the listed nets of one record, in list order.
ghost use Rattle.std.specs.Prelude.{◌≡◌, not, ℕ, ◌+◌, ◌-◌, ◌*◌, ◌/◌, ◌<◌, ◌≤◌, ◌^◌, leb};
ghost use Rattle.model.specs.Store.{max_runs};
ghost use Rattle.run_lists.specs.RunLists.{add_runs, runs_in_words};
ghost use Rattle.run_lists.specs.Answers.{Room, Adds};
ghost use Rattle.detection.specs.Cases.{Case};
ghost use Rattle.detection.specs.Walks.{input_runs_of, runs_before};
ghost use Rattle.block_intervals.specs.Spans.{first_of, end_of, SpansMade};
ghost use Rattle.block_intervals.specs.PinSpans.{source_at, shift_at, pin_runs_of, byte_runs, entry_runs_of, with_span, PinReady, ByteReady, EntryReady, NetSpanned, NetsListed, SomeNetsListed};
ghost use Rattle.block_words.specs.Layout.{kinds_at};

use crate::layout::{ENDS_AT, SHIFTS_AT, SPANS_SIZE};
use block_activity::inner::layout::OFFSET_TABLE_SIZE;
use block_words::inner::layout::GATE_TABLE_SIZE;
use model::MAX_RUNS;
use run_union::inner::append_shifted;

// Writes where the runs of a net stand.
fn put_span(spans: &mut [u64; SPANS_SIZE], net: usize, first: usize, end: usize, shift: u64)
    requires { net < 512 }
    ensures { spans.new ≡ with_span spans.old net first end shift }
{
    spans[net] = first as u64;
    spans[ENDS_AT + net] = end as u64;
    spans[SHIFTS_AT + net] = shift;
}

// A net with one active pin: its runs are those of the pin's net, shifted, and are not copied. Answers how many they are.
fn one_pin(
    table: &[u16; GATE_TABLE_SIZE],
    offsets: &[u64; OFFSET_TABLE_SIZE],
    at: usize,
    net: usize,
    spans: &mut [u64; SPANS_SIZE],
) -> usize
    requires net_bound { (net < 512) × (at < kinds_at) × (source_at table.now at < 512) × (shift_at table.now offsets.now spans.old at ≤ 2 ^ 62) }
    requires at_bound { (first_of spans.old (source_at table.now at) ≤ end_of spans.old (source_at table.now at)) × (end_of spans.old (source_at table.now at) ≤ max_runs) }
    ensures { (spans.new ≡ with_span spans.old net (first_of spans.old (source_at table.now at))
        (end_of spans.old (source_at table.now at)) (shift_at table.now offsets.now spans.old at))
        × (result ≡ end_of spans.old (source_at table.now at) - first_of spans.old (source_at table.now at)) }
{
    let source = table[at] as usize;
    let first = spans[source] as usize;
    let end = spans[ENDS_AT + source] as usize;
    let shift = spans[SHIFTS_AT + source] + offsets[at];
    put_span(spans, net, first, end, shift);
    end - first
}

// Adds the runs of the net at a pin, shifted.
fn add_pin(
    table: &[u16; GATE_TABLE_SIZE],
    offsets: &[u64; OFFSET_TABLE_SIZE],
    at: usize,
    spans: &[u64; SPANS_SIZE],
    words: &mut [u64],
    made: usize,
    count: usize,
) -> Option<usize>
    requires at_lt_kinds_at { (at < kinds_at) × (made ≤ max_runs) }
    requires room { Room words.old made count (max_runs - made) }
    requires pin_ready { PinReady table.now offsets.now spans.now words.old made at }
    ensures { Adds words.old words.new made (max_runs - made)
        (add_runs (runs_in_words words.old made count) (pin_runs_of table.now offsets.now spans.now words.old at)) result }
{
    let source = table[at] as usize;
    append_shifted(
        words,
        spans[source] as usize,
        spans[ENDS_AT + source] as usize,
        made,
        count,
        MAX_RUNS - made,
        spans[SHIFTS_AT + source] + offsets[at],
    )
}

// A net with more active pins: the runs of the pins' nets, shifted, one after the other, from run place `made` on.
fn more_pins(
    table: &[u16; GATE_TABLE_SIZE],
    offsets: &[u64; OFFSET_TABLE_SIZE],
    first: usize,
    byte: u64,
    spans: &[u64; SPANS_SIZE],
    words: &mut [u64],
    made: usize,
) -> Option<usize>
    requires { ByteReady table.now offsets.now spans.now words.old made first byte }
    ensures { Adds words.old words.new made (max_runs - made)
        (byte_runs table.now offsets.now first byte spans.now words.old) result }
{
    let mut left = byte;
    let mut count = 0;
    while left != 0 {
        let pin = u64::trailing_zeros(left) as usize;
        count = add_pin(table, offsets, first + pin, spans, words, made, count)?;
        left = left & (left - 1);
    }
    Some(count)
}

// The span of one listed net, by its entry: 256 net + byte of its active pins. Nearly every net has one active pin.
fn net_span(
    table: &[u16; GATE_TABLE_SIZE],
    offsets: &[u64; OFFSET_TABLE_SIZE],
    entry: u32,
    spans: &mut [u64; SPANS_SIZE],
    words: &mut [u64],
    made: usize,
) -> Option<(usize, usize)>
    requires { EntryReady table.now offsets.now entry spans.old words.old made }
    ensures { NetSpanned made (entry / 256) (entry_runs_of table.now offsets.now entry spans.old words.old)
        spans.old words.old spans.new words.new result }
{
    let net = (entry / 256) as usize;
    let byte = (entry % 256) as u64;
    let first = 8 * net;
    if byte & (byte - 1) == 0 {
        let pin = u64::trailing_zeros(byte) as usize;
        let count = one_pin(table, offsets, first + pin, net, spans);
        return Some((count, made));
    }
    let count = more_pins(table, offsets, first, byte, spans, words, made)?;
    let after = made + count;
    put_span(spans, net, made, after, 0);
    Some((count, after))
}

// The runs of all listed nets: those of a net with one active pin by reference. Answers how many they are, or nothing where those that stand find no room.
pub(crate) fn net_spans(
    table: &[u16; GATE_TABLE_SIZE],
    offsets: &[u64; OFFSET_TABLE_SIZE],
    entries: &[u32],
    spans: &mut [u64; SPANS_SIZE],
    words: &mut [u64],
) -> Option<usize>
    requires { SomeNetsListed table.now offsets.now entries.now spans.old words.old }
    ensures { (K : Case) (inputs : ℕ)
        → NetsListed K inputs table.now offsets.now entries.now spans.old words.old
        → SpansMade K inputs words.old words.new spans.new result }
{
    let mut made = 1;
    let mut total = 0;
    for i in 0..entries.len() {
        let (count, after) = net_span(table, offsets, entries[i], spans, words, made)?;
        total += count;
        made = after;
    }
    Some(total)
}

// Whether the working runs, those of the gates' nets and one for each input that makes the edge, are over 1,024. Inputs are at most 64, so their bits are
// hardly ever counted.
pub(crate) fn over_working(total: usize, edges: u64, inputs: usize) -> bool
    requires { inputs ≤ 64 }
    ensures { result ≡ not (leb (runs_before (input_runs_of edges) inputs + total) max_runs) }
{
    if total <= MAX_RUNS - 64 {
        return false;
    }
    if MAX_RUNS < total {
        return true;
    }
    let mut sum = total;
    for input in 0..inputs {
        sum += ((edges >> (input as u64)) & 1) as usize;
    }
    MAX_RUNS < sum
}
