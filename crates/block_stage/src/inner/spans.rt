// The spans and sections that the records of a block share: begun with the store as it is, and the sections found anew where an edge has changed. Each caller
// proves what a function requires.
ghost use Rattle.std.specs.Prelude.{◌≡◌, ◌⊎◌, ℕ, ◌≤◌, length};
ghost use Rattle.store_words.specs.Sound.{FewRuns};
ghost use Rattle.block_intervals.specs.Spans.{InputSpans};
ghost use Rattle.block_intervals.specs.Layout.{spans_size, rising_sections, falling_sections};

use block_activity::inner::layout::OFFSET_TABLE_SIZE;
use block_intervals::inner::input_spans;
use block_intervals::inner::sections::find_sections;
use block_intervals::layout::{FALLING_SECTIONS, RISING_SECTIONS, SPANS_SIZE};
use path_faults::Edge;
use store_coverage::inner::edges::Over;
use store_words::inner::parts::edge_runs;
use store_writing::inner::Change;

// The spans of the inputs and the sections of both edges.
pub fn begin_spans(
    offsets: &[u64; OFFSET_TABLE_SIZE],
    inputs: usize,
    outputs: usize,
    store: &[u64],
    spans: &mut [u64; SPANS_SIZE],
)
    requires { (inputs ≤ 64) × FewRuns store.now × (length spans.old ≡ spans_size) }
    ensures { InputSpans spans.new inputs }
{
    input_spans(spans, inputs);
    find_sections(
        offsets,
        outputs,
        edge_runs(store, Edge::Rising),
        spans,
        RISING_SECTIONS,
    );
    find_sections(
        offsets,
        outputs,
        edge_runs(store, Edge::Falling),
        spans,
        FALLING_SECTIONS,
    );
}

// The sections of one edge, where its runs were made anew.
fn renew_edge(
    offsets: &[u64; OFFSET_TABLE_SIZE],
    outputs: usize,
    change: Change,
    held: &[u64],
    spans: &mut [u64; SPANS_SIZE],
    base: usize,
)
    requires { (length spans.old ≡ spans_size) × ((base ≡ rising_sections) ⊎ (base ≡ falling_sections)) }
    ensures { (length spans.new ≡ spans_size)
        × ((inputs : ℕ) → inputs ≤ 64 → InputSpans spans.old inputs → InputSpans spans.new inputs) }
{
    if let Change::Kept = change {
        return;
    }
    find_sections(offsets, outputs, held, spans, base);
}

// The sections of both edges, after what was made of them is written.
pub fn renew_sections(
    offsets: &[u64; OFFSET_TABLE_SIZE],
    outputs: usize,
    answer: Result<(Change, Change), Over>,
    store: &[u64],
    spans: &mut [u64; SPANS_SIZE],
)
    requires { FewRuns store.now × (length spans.old ≡ spans_size) }
    ensures { (inputs : ℕ) → inputs ≤ 64 → InputSpans spans.old inputs → InputSpans spans.new inputs }
{
    if let Ok((rising, falling)) = answer {
        let up = edge_runs(store, Edge::Rising);
        renew_edge(offsets, outputs, rising, up, spans, RISING_SECTIONS);
        let down = edge_runs(store, Edge::Falling);
        renew_edge(offsets, outputs, falling, down, spans, FALLING_SECTIONS);
    }
}
