// One record that no rule of the place Test refuses. Each caller proves what a function requires.
ghost use Rattle.model.specs.Netlist.{Netlist};
ghost use Rattle.model.specs.Detect.{Test};
ghost use Rattle.model.specs.Read.{class_of};
ghost use Rattle.netlist.specs.Tables.{CircuitTables};
ghost use Rattle.store_coverage.specs.Both.{CoversBoth};
ghost use Rattle.store_coverage.specs.Stage.{work_stage, StageIs};
ghost use Rattle.single_stage.specs.LegalStage.{PinsOf, LegalReady, WorkReady, StageTrue};

use model::Refusal;
use netlist::inner::Shape;
use path_faults::Edge;
use record_test::inner::{InputEdges, edges_of, read_vectors};
use single_intervals::inner::detected_runs;
use single_simulation::inner::open_pins::open_masks;
use store_coverage::inner::edges::{FALLING_UNION, Over, RISING_UNION, join_answers, join_edge};
use store_coverage::inner::write_both;
use store_words::inner::parts::edge_runs;
use store_writing::inner::Change;

// Covers both edges of a store: the rising runs are made in the third quarter of the words, the falling ones in the last.
fn cover_both(
    netlist: &[u8],
    positions: &[u16; 512],
    counts: &[u64; 512],
    masks: &[u8; 512],
    edges: InputEdges,
    shape: Shape,
    store: &[u64],
    words: &mut [u64],
) -> Result<(Change, Change), Over>
    requires { WorkReady netlist.now positions.now counts.now masks.now edges shape store.now words.old }
    ensures { (N : Netlist) (t : Test) → CircuitTables N netlist.now positions.now counts.now shape
        → PinsOf N t masks.now edges → CoversBoth N t store.now words.old words.new result }
{
    let up = detected_runs(netlist, positions, counts, masks, edges.rises, shape, words);
    let rising = join_edge(up, edge_runs(store, Edge::Rising), words, RISING_UNION);
    let down = detected_runs(netlist, positions, counts, masks, edges.falls, shape, words);
    let falling = join_edge(down, edge_runs(store, Edge::Falling), words, FALLING_UNION);
    join_answers(rising, falling)
}

// The place Work, from the open pins and the edges of the inputs.
fn work_on(
    netlist: &[u8],
    positions: &[u16; 512],
    counts: &[u64; 512],
    masks: &[u8; 512],
    edges: InputEdges,
    shape: Shape,
    store: &mut [u64],
    work: &mut [u64],
) -> Result<(), Refusal>
    requires { WorkReady netlist.now positions.now counts.now masks.now edges shape store.old work.old }
    ensures { (N : Netlist) (t : Test) → CircuitTables N netlist.now positions.now counts.now shape
        → PinsOf N t masks.now edges
        → StageIs (work_stage N t store.old)
        store.old store.new work.old work.new result }
{
    let answer = cover_both(netlist, positions, counts, masks, edges, shape, store, work);
    write_both(answer, store, work)
}

// A record that no rule of the place Test refuses, judged in a class.
pub fn apply_legal(
    netlist: &[u8],
    positions: &[u16; 512],
    counts: &[u64; 512],
    shape: Shape,
    test: &[u8],
    class: u32,
    store: &mut [u64],
    work: &mut [u64],
) -> Result<(), Refusal>
    requires { LegalReady netlist.now positions.now counts.now shape test.now store.old work.old }
    ensures { (N : Netlist) → CircuitTables N netlist.now positions.now counts.now shape
        → StageTrue N (class_of class) test.now store.old store.new work.old work.new result }
{
    let vectors = read_vectors(test, shape.inputs);
    let masks = open_masks(netlist, positions, shape, vectors.v1, vectors.v2, class);
    let edges = edges_of(vectors);
    work_on(
        netlist, positions, counts, &masks, edges, shape, store, work,
    )
}
