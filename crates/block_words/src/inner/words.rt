// All nets in a block of records: one pass over the gates, which evaluates each net under V1, under V2 and for steadiness, finds the open and active pins of its gate,
// and lists the gate for the records in which it is live. The words of net n stand from place 8 n on, in memory that the caller lends and that need not be cleared.
ghost use Rattle.std.specs.Prelude.{◌≡◌, ◌*◌, ◌≤◌, ◌<◌, length};
ghost use Rattle.block_words.specs.Table.{SomeTable};
ghost use Rattle.block_words.specs.Lists.{EmptyLists};
ghost use Rattle.block_words.specs.NetStates.{NetPut, InputWords, StateIs, GatesListed};
ghost use Rattle.block_words.specs.Layout.{nets_size};

use crate::inner::gates::{Gate, PinScan};
use crate::inner::layout::GATE_TABLE_SIZE;
use crate::inner::robust::Live;
use crate::inner::{gates, lists, masks, robust};
use netlist::inner::Shape;

// The places of the live words among the words of a net.
pub const RISES: usize = 3;

pub const FALLS: usize = 4;

// The words of a net: under V1, under V2, steady, live for the rising edge, live for the falling edge.
#[derive(Drop)]
pub struct NetState {
    pub first: u64,
    pub last: u64,
    pub steady: u64,
    pub rises: u64,
    pub falls: u64,
}

// Writes the words of a net.
pub fn put_net(words: &mut [u64], net: usize, state: NetState)
    requires { (net < 512) × (nets_size ≤ length words.old) }
    ensures { NetPut net state words.old words.new }
{
    let at = 8 * net;
    words[at] = state.first;
    words[at + 1] = state.last;
    words[at + 2] = state.steady;
    words[at + 3] = state.rises;
    words[at + 4] = state.falls;
}

// The words of the inputs of n records: steady where V1 and V2 agree, live for an edge where the input makes it.
pub fn input_words(
    firsts: &[u64; 64],
    lasts: &[u64; 64],
    inputs: usize,
    n: usize,
    words: &mut [u64],
)
    requires { (inputs ≤ 64) × (n ≤ 64) × (nets_size ≤ length words.old) }
    ensures { InputWords firsts.now lasts.now inputs n words.old words.new }
{
    let within = masks::first_records(n);
    for input in 0..inputs {
        let first = firsts[input];
        let last = lasts[input];
        let moved = first ^ last;
        let state = NetState {
            first,
            last,
            steady: !moved,
            rises: (moved & last) & within,
            falls: (moved & first) & within,
        };
        put_net(words, input, state);
    }
}

// The words of a gate's net, from what its pins show.
pub fn net_state(gate: Gate, scan: PinScan, live: Live) -> NetState
    requires { (1 ≤ gate.kind) × (gate.kind ≤ 8) }
    ensures { StateIs gate.kind scan live result }
{
    let kind = gate.kind;
    let first = scan.first;
    let last = scan.last;
    let unsteady = scan.unsteady;
    NetState {
        first: gates::value_word(kind, first.one, first.parity),
        last: gates::value_word(kind, last.one, last.parity),
        steady: robust::steady_word(kind, unsteady.one, scan.steady_controlling),
        rises: live.up,
        falls: live.down,
    }
}

// The words of every net, and for each edge and record the list of its live gates. The inputs' words are there already, the lists are empty.
pub fn gate_lists(
    table: &[u16; GATE_TABLE_SIZE],
    shape: Shape,
    class: u32,
    words: &mut [u64],
    rising_lists: &mut [u32],
    falling_lists: &mut [u32],
    rising_lens: &mut [u16; 64],
    falling_lens: &mut [u16; 64],
)
    requires { SomeTable table.now shape.inputs shape.nets × (nets_size ≤ length words.old) × EmptyLists rising_lists.old rising_lens.old
        × EmptyLists falling_lists.old falling_lens.old }
    ensures { GatesListed table.now shape class words.old words.new rising_lists.old rising_lists.new rising_lens.new
        falling_lists.old falling_lists.new falling_lens.new }
{
    let mut rising_rows = [0u64; 8];
    let mut falling_rows = [0u64; 8];
    for net in shape.inputs..shape.nets {
        let gate = gates::gate_at(table, net);
        let scan = gates::scan_pins(table, gate, words);
        let live = robust::active_words(
            table,
            class,
            gate,
            scan,
            words,
            &mut rising_rows,
            &mut falling_rows,
        );
        lists::push(
            rising_lists,
            rising_lens,
            live.up,
            net,
            &rising_rows,
            gate.pins,
        );
        lists::push(
            falling_lists,
            falling_lens,
            live.down,
            net,
            &falling_rows,
            gate.pins,
        );
        put_net(words, net, net_state(gate, scan, live));
    }
}
