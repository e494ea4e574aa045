// Each caller proves what a function requires.
pub mod outputs;
pub mod sections;

ghost use Rattle.std.specs.Prelude.{◌≡◌, ℕ, ◌≤◌, length};
ghost use Rattle.detection.specs.Cases.{Case};
ghost use Rattle.block_intervals.specs.Spans.{InputSpans, ListedAt, SomeListedAt};
ghost use Rattle.block_intervals.specs.LiveOutputs.{SpansListed};
ghost use Rattle.block_intervals.specs.Layout.{spans_size};

use crate::inner::sections::clear_sections;
use crate::layout::{ENDS_AT, SHIFTS_AT, SPANS_SIZE};
use crate::nets::{net_spans, over_working};
use block_activity::inner::layout::OFFSET_TABLE_SIZE;
use block_words::inner::layout::GATE_TABLE_SIZE;

// The spans of the inputs, the same for every record and edge: each has the run at run place 0. The sections of both edges are empty until they are found.
pub fn input_spans(spans: &mut [u64; SPANS_SIZE], inputs: usize)
    requires { (inputs ≤ 64) × (length spans.old ≡ spans_size) }
    ensures { InputSpans spans.new inputs }
{
    clear_sections(spans);
    for input in 0..inputs {
        spans[input] = 0;
        spans[ENDS_AT + input] = 1;
        spans[SHIFTS_AT + input] = 0;
    }
}

// Makes the runs of a record's listed nets in the first quarter of the words, or answers nothing where the working runs are over 1,024.
pub fn listed_spans(
    table: &[u16; GATE_TABLE_SIZE],
    offsets: &[u64; OFFSET_TABLE_SIZE],
    entries: &[u32],
    edges: u64,
    inputs: usize,
    spans: &mut [u64; SPANS_SIZE],
    words: &mut [u64],
) -> Option<usize>
    requires { SomeListedAt table.now offsets.now entries.now edges inputs spans.old words.old }
    ensures { InputSpans spans.new inputs
        × ((K : Case) (outs : ℕ)
        → ListedAt K table.now offsets.now entries.now edges outs inputs spans.old words.old
        → SpansListed K offsets.now outs spans.new words.old words.new result) }
{
    words[0] = 1;
    words[1] = 1;
    let total = net_spans(table, offsets, entries, spans, words)?;
    if over_working(total, edges, inputs) {
        return None;
    }
    Some(total)
}
