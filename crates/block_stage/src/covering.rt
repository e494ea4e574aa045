// One edge of a store with what a record of a block detects. Each caller proves what a function requires.
ghost use Rattle.detection.specs.Cases.{Case};
ghost use Rattle.store_coverage.specs.Covers.{held_runs, Covers};
ghost use Rattle.block_intervals.specs.Spans.{InputSpans};
ghost use Rattle.block_stage.specs.Covering.{EdgeReady, SomeEdgeReady};

use block_activity::inner::layout::OFFSET_TABLE_SIZE;
use block_intervals::inner::listed_spans;
use block_intervals::inner::outputs::out_runs;
use block_intervals::inner::sections::outputs_inside;
use block_intervals::layout::SPANS_SIZE;
use block_words::inner::layout::GATE_TABLE_SIZE;
use store_coverage::inner::edges::{Over, join_edge};
use store_writing::inner::Change;

// One edge of one record: a bit for each input that makes it and for each live output, the number of inputs, the place of the edge's sections and the run place
// of its union.
#[derive(Drop)]
pub struct EdgeMarks {
    pub edges: u64,
    pub outs: u64,
    pub inputs: usize,
    pub base: usize,
    pub target: usize,
}

// Covers the runs that an edge holds with what the record detects. Where all of that is held already no run is copied.
pub(crate) fn cover_edge(
    table: &[u16; GATE_TABLE_SIZE],
    offsets: &[u64; OFFSET_TABLE_SIZE],
    entries: &[u32],
    marks: EdgeMarks,
    held: &[u64],
    spans: &mut [u64; SPANS_SIZE],
    words: &mut [u64],
) -> Result<Change, Over>
    requires { SomeEdgeReady table.now offsets.now entries.now marks held.now spans.old words.old }
    ensures { InputSpans spans.new marks.inputs
        × ((K : Case) → EdgeReady K table.now offsets.now entries.now marks held.now spans.old words.old
        → Covers K (held_runs held.now) words.old words.new marks.target result) }
{
    let edges = marks.edges;
    let outs = marks.outs;
    if edges == 0 {
        return Ok(Change::Kept);
    }
    match listed_spans(table, offsets, entries, edges, marks.inputs, spans, words) {
        None => Err(Over::Work),
        Some(total) => {
            if outputs_inside(offsets, outs, spans, marks.base, words, held) {
                return Ok(Change::Kept);
            }
            let found = out_runs(offsets, outs, spans, words);
            join_edge(found, held, words, marks.target)
        }
    }
}
