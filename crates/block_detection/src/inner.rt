// One path in a block of records: the active words of its pins, taken together. Each caller proves what a function requires.
ghost use Rattle.std.specs.Prelude.{◌≡◌, ◌+◌, ◌*◌, ◌≤◌, ◌<◌, length, get_or};
ghost use Rattle.path_faults.specs.Answers.{model_edge};
ghost use Rattle.block_words.specs.Layout.{nets_size};
ghost use Rattle.block_words.specs.Table.{SomeTable};
ghost use Rattle.block_detection.specs.PathWords.{live_at, PinThere, ActiveWord, WalkReady, PathWord, FaultReady, FaultWord, GatesStated, BlockWord};

use block_transpose::inner::transpose;
use block_words::inner::gates::{gate_at, scan_pins};
use block_words::inner::layout::GATE_TABLE_SIZE;
use block_words::inner::robust::active_words;
use block_words::inner::words::{FALLS, RISES, input_words, net_state, put_net};
use netlist::inner::{Shape, gate_part, outputs_part};
use path_faults::Edge;
use path_step::inner::outputs::pick_output;
use path_step::inner::pins::pick_pin;

// A partial path of a net, an edge, and the class of the block.
#[derive(Drop)]
pub struct Walk {
    pub net: usize,
    pub number: u64,
    pub edge: Edge,
    pub class: u32,
}

// The fault of a path and an edge, and the class and the number of records of the block.
#[derive(Drop)]
pub struct Sought {
    pub path: u64,
    pub edge: Edge,
    pub class: u32,
    pub records: usize,
}

// The active word of a pin: the records in which it is open and its net is live for the edge.
fn active_word(
    table: &[u16; GATE_TABLE_SIZE],
    words: &[u64],
    shape: Shape,
    class: u32,
    edge: Edge,
    net: usize,
    pin: usize,
) -> u64
    requires { PinThere table.now words.now shape net pin }
    ensures { ActiveWord table.now words.now shape class (model_edge edge) net pin result }
{
    let gate = gate_at(table, net);
    let scan = scan_pins(table, gate, words);
    let mut rising_rows = [0u64; 8];
    let mut falling_rows = [0u64; 8];
    active_words(
        table,
        class,
        gate,
        scan,
        words,
        &mut rising_rows,
        &mut falling_rows,
    );
    match edge {
        Edge::Rising => rising_rows[pin],
        Edge::Falling => falling_rows[pin],
    }
}

// The words of every net, from those of the inputs: one pass over the gates, as `gate_lists` makes it, without the lists.
pub fn gate_words(table: &[u16; GATE_TABLE_SIZE], shape: Shape, class: u32, words: &mut [u64])
    requires { SomeTable table.now shape.inputs shape.nets × (nets_size ≤ length words.old) }
    ensures { GatesStated table.now shape class words.old words.new }
{
    let mut rising_rows = [0u64; 8];
    let mut falling_rows = [0u64; 8];
    for net in shape.inputs..shape.nets {
        let gate = gate_at(table, net);
        let scan = scan_pins(table, gate, words);
        let live = active_words(
            table,
            class,
            gate,
            scan,
            words,
            &mut rising_rows,
            &mut falling_rows,
        );
        put_net(words, net, net_state(gate, scan, live));
    }
}

// The live word of a net for an edge.
fn live_word(words: &[u64], edge: Edge, net: usize) -> u64
    requires { (net < 512) × (nets_size ≤ length words.now) }
    ensures { result ≡ get_or words.now (8 * net + live_at (model_edge edge)) 0 }
{
    match edge {
        Edge::Rising => words[8 * net + RISES],
        Edge::Falling => words[8 * net + FALLS],
    }
}

// The records in which all pins of a partial path are open and its input makes the edge.
pub fn path_word(
    netlist: &[u8],
    positions: &[u16; 512],
    counts: &[u64; 512],
    shape: Shape,
    table: &[u16; GATE_TABLE_SIZE],
    words: &[u64],
    walk: Walk,
) -> u64
    requires { WalkReady netlist.now positions.now counts.now shape table.now words.now walk.net walk.number }
    ensures { PathWord netlist.now positions.now counts.now shape words.now walk.class
        (model_edge walk.edge) walk.net walk.number result }
{
    let edge = walk.edge;
    let class = walk.class;
    let mut at = walk.net;
    let mut rest = walk.number;
    let mut word: u64 = 0xFFFFFFFFFFFFFFFF;
    while shape.inputs <= at {
        let part = gate_part(netlist, positions, at);
        let pick = pick_pin(part, counts, rest);
        let active = active_word(table, words, shape, class, edge, at, pick.pin);
        word = word & active;
        at = pick.net;
        rest = pick.number;
    }
    let live = live_word(words, edge, at);
    word & live
}

// The records that detect the fault of a path and an edge.
pub fn fault_word(
    netlist: &[u8],
    positions: &[u16; 512],
    counts: &[u64; 512],
    shape: Shape,
    table: &[u16; GATE_TABLE_SIZE],
    words: &[u64],
    sought: Sought,
) -> u64
    requires { FaultReady netlist.now positions.now counts.now shape table.now words.now sought.path }
    ensures { FaultWord netlist.now positions.now counts.now shape words.now sought.class
        (model_edge sought.edge) sought.path result }
{
    let number = sought.path;
    let edge = sought.edge;
    let class = sought.class;
    let outputs = outputs_part(netlist, shape.outputs);
    let out = pick_output(outputs, shape.outputs, counts, shape.inputs, number);
    let walk = Walk {
        net: out.net,
        number: out.number,
        edge,
        class,
    };
    path_word(netlist, positions, counts, shape, table, words, walk)
}

// The records of a block that detect the fault of a path and an edge, from the words of their vectors. The words of the nets are made in the memory lent for them.
pub fn block_word(
    netlist: &[u8],
    positions: &[u16; 512],
    counts: &[u64; 512],
    shape: Shape,
    table: &[u16; GATE_TABLE_SIZE],
    vectors: &[u64; 128],
    sought: Sought,
    work: &mut [u64],
) -> u64
    requires { FaultReady netlist.now positions.now counts.now shape table.now work.old sought.path × (sought.records ≤ 64) }
    ensures { BlockWord netlist.now positions.now counts.now shape vectors.now sought.class
        sought.records (model_edge sought.edge) sought.path result }
{
    let inputs = shape.inputs;
    let records = sought.records;
    let class = sought.class;
    let firsts = transpose(vectors, 0, records, inputs);
    let lasts = transpose(vectors, 64, records, inputs);
    input_words(&firsts, &lasts, inputs, records, work);
    gate_words(table, shape, class, work);
    fault_word(netlist, positions, counts, shape, table, work, sought)
}
