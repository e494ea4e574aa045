// The place Work of one record of a block, from its lists of live gates. Each caller proves what a function requires.
ghost use Rattle.std.specs.Prelude.{◌≡◌, ◌<◌};
ghost use Rattle.model.specs.Netlist.{Netlist};
ghost use Rattle.model.specs.Detect.{Test};
ghost use Rattle.store_coverage.specs.Both.{CoversBoth};
ghost use Rattle.store_coverage.specs.Stage.{work_stage, StageIs};
ghost use Rattle.block_intervals.specs.Spans.{InputSpans};
ghost use Rattle.block_stage.specs.Listed.{edges_at, ListedBoth, SomeListedBoth};

use crate::covering::{EdgeMarks, cover_edge};
use crate::inner::spans::renew_sections;
use block_activity::inner::layout::{DOWN_OUTS_AT, MARKS_SIZE, OFFSET_TABLE_SIZE, UP_OUTS_AT};
use block_intervals::layout::{FALLING_SECTIONS, RISING_SECTIONS, SPANS_SIZE};
use block_words::inner::layout::GATE_TABLE_SIZE;
use model::Refusal;
use path_faults::Edge;
use store_coverage::inner::edges::{FALLING_UNION, Over, RISING_UNION, join_answers};
use store_coverage::inner::write_both;
use store_words::inner::parts::edge_runs;
use store_writing::inner::Change;

// The marks of one record: a bit for each input that rises or falls, a bit for each live output of the rising and of the falling edge, the numbers of inputs and
// outputs.
#[derive(Clone, Copy)]
pub struct RecordEdges {
    pub rises: u64,
    pub falls: u64,
    pub up_outs: u64,
    pub down_outs: u64,
    pub inputs: usize,
    pub outputs: usize,
}

// The marks of record t of a block.
pub fn edges_at(marks: &[u64; MARKS_SIZE], t: usize, inputs: usize, outputs: usize) -> RecordEdges
    requires { t < 64 }
    ensures { result ≡ edges_at marks.now t inputs outputs }
{
    RecordEdges {
        rises: marks[t],
        falls: marks[64 + t],
        up_outs: marks[UP_OUTS_AT + t],
        down_outs: marks[DOWN_OUTS_AT + t],
        inputs,
        outputs,
    }
}

// Covers both edges of a store with what a record detects: the rising runs are made in the third quarter of the words, the falling ones in the last.
pub fn cover_listed(
    table: &[u16; GATE_TABLE_SIZE],
    offsets: &[u64; OFFSET_TABLE_SIZE],
    rising_list: &[u32],
    falling_list: &[u32],
    edges: RecordEdges,
    store: &[u64],
    spans: &mut [u64; SPANS_SIZE],
    words: &mut [u64],
) -> Result<(Change, Change), Over>
    requires { SomeListedBoth table.now offsets.now rising_list.now falling_list.now edges store.now spans.old words.old }
    ensures { InputSpans spans.new edges.inputs
        × ((N : Netlist) (t : Test)
        → ListedBoth N t table.now offsets.now rising_list.now falling_list.now edges store.now spans.old
        words.old
        → CoversBoth N t store.now words.old words.new result) }
{
    let up = EdgeMarks {
        edges: edges.rises,
        outs: edges.up_outs,
        inputs: edges.inputs,
        base: RISING_SECTIONS,
        target: RISING_UNION,
    };
    let rising = cover_edge(
        table,
        offsets,
        rising_list,
        up,
        edge_runs(store, Edge::Rising),
        spans,
        words,
    );
    let down = EdgeMarks {
        edges: edges.falls,
        outs: edges.down_outs,
        inputs: edges.inputs,
        base: FALLING_SECTIONS,
        target: FALLING_UNION,
    };
    let falling = cover_edge(
        table,
        offsets,
        falling_list,
        down,
        edge_runs(store, Edge::Falling),
        spans,
        words,
    );
    join_answers(rising, falling)
}

// The place Work of one record on a sound store.
pub(crate) fn apply_listed(
    table: &[u16; GATE_TABLE_SIZE],
    offsets: &[u64; OFFSET_TABLE_SIZE],
    rising_list: &[u32],
    falling_list: &[u32],
    edges: RecordEdges,
    store: &mut [u64],
    spans: &mut [u64; SPANS_SIZE],
    work: &mut [u64],
) -> Result<(), Refusal>
    requires { SomeListedBoth table.now offsets.now rising_list.now falling_list.now edges store.old spans.old work.old }
    ensures { InputSpans spans.new edges.inputs
        × ((N : Netlist) (t : Test)
        → ListedBoth N t table.now offsets.now rising_list.now falling_list.now edges store.old spans.old
        work.old
        → StageIs (work_stage N t store.old) store.old store.new work.old work.new result) }
{
    let answer = cover_listed(
        table,
        offsets,
        rising_list,
        falling_list,
        edges,
        store,
        spans,
        work,
    );
    let stage = write_both(answer, store, work);
    renew_sections(offsets, edges.outputs, answer, store, spans);
    stage
}
