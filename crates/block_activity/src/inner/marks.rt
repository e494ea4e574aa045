// The marks of a block's records: one pass over the gates for each edge, then what it tells of each record.
ghost use Rattle.std.specs.Prelude.{◌≡◌, ◌&&◌, ℕ, ◌≤◌, ◌<◌, leb, length, get_or};
ghost use Rattle.model.specs.Base.{bit};
ghost use Rattle.model.specs.Netlist.{Netlist};
ghost use Rattle.model.specs.Detect.{Test};
ghost use Rattle.model.specs.Read.{class_of};
ghost use Rattle.model.specs.Calls.{work_words_count};
ghost use Rattle.block_words.specs.Block.{BlockOf};
ghost use Rattle.block_words.specs.NetStates.{plane};
ghost use Rattle.block_words.specs.Table.{CircuitTable};
ghost use Rattle.block_activity.specs.Marks.{OffsetTable, MarksTrue, VectorsOf};
ghost use Rattle.block_activity.specs.EdgeMarks.{BatchTables, OutsAre, EdgeWritten, WorkKept};
ghost use Rattle.block_words.specs.Layout.{nets_size, lists_size};
ghost use Rattle.block_activity.specs.Layout.{marks_size, out_at};

use crate::inner::Batch;
use crate::inner::layout::{
    MARKS_SIZE, OFFSET_TABLE_SIZE, OUTPUT_NETS_AT, UP_LENGTHS_AT, UP_OUTS_AT,
};
use block_transpose::inner::transpose;
use block_words::inner::layout::GATE_TABLE_SIZE;
use block_words::inner::masks::flip;
use block_words::inner::words;
use block_words::inner::words::{FALLS, RISES};
use netlist::inner::Shape;

// The live word of a net that a gate drives; 0 for an input.
fn gate_word(words: &[u64], inputs: usize, net: usize, edge: usize) -> u64
    requires { (net < 512) × (edge ≤ 7) × (nets_size ≤ length words.now) }
    ensures { (t : ℕ) → bit result t ≡ (leb inputs net && bit (get_or (plane edge words.now) net 0) t) }
{
    if net < inputs {
        return 0;
    }
    words[8 * net + edge]
}

// The live outputs of each record, for the edge whose live word is the one at place `edge` of a net's words.
fn live_outputs(
    offsets: &[u64; OFFSET_TABLE_SIZE],
    inputs: usize,
    outputs: usize,
    words: &[u64],
    edge: usize,
) -> [u64; 64]
    requires { (outputs ≤ 64) × ((o : ℕ) → o < outputs → out_at offsets.now o < 512) × (edge ≤ 7) × (nets_size ≤ length words.now) }
    ensures { OutsAre offsets.now inputs outputs (plane edge words.now) result }
{
    let mut outs = [0u64; 64];
    for o in 0..outputs {
        let word = gate_word(words, inputs, offsets[OUTPUT_NETS_AT + o] as usize, edge);
        flip(&mut outs, word, 1u64 << (o as u64));
    }
    outs
}

// Writes the marks of an edge: `first` is 0 for the rising edge, where V1 stands before V2, and 64 for the falling one.
fn write_marks(
    vectors: &[u64; 128],
    records: usize,
    first: usize,
    lens: &[u16; 64],
    outs: &[u64; 64],
    marks: &mut [u64; MARKS_SIZE],
)
    requires { (records ≤ 64) × (first ≤ 64) × (length marks.old ≡ marks_size) × ((t : ℕ) → t < 64 → get_or lens.now t 0 ≤ 512) }
    ensures { EdgeWritten vectors.now records first outs.now lens.now marks.old marks.new }
{
    for t in 0..records {
        let to = vectors[64 - first + t];
        marks[first + t] = (vectors[first + t] ^ to) & to;
        marks[UP_OUTS_AT + first + t] = outs[t];
        marks[UP_LENGTHS_AT + first + t] = lens[t] as u64;
    }
}

// The marks of a block's records, and their lists of live gates, from their vectors. The words of the nets are made in the working memory, which is
// free until the first record is applied: 32 KB that need not be cleared for each block.
pub fn fill_block(
    table: &[u16; GATE_TABLE_SIZE],
    offsets: &[u64; OFFSET_TABLE_SIZE],
    batch: Batch,
    vectors: &[u64; 128],
    rising_lists: &mut [u32],
    falling_lists: &mut [u32],
    marks: &mut [u64; MARKS_SIZE],
    work: &mut [u64],
)
    requires { BatchTables table.now offsets.now batch × (lists_size ≤ length rising_lists.old) × (lists_size ≤ length falling_lists.old) × (length marks.old ≡ marks_size)
        × (work_words_count ≤ length work.old) }
    ensures { (length rising_lists.new ≡ length rising_lists.old) × (length falling_lists.new ≡ length falling_lists.old)
        × (length marks.new ≡ marks_size)
        × ((N : Netlist) (tests : ℕ → Test) → CircuitTable N table.now batch.inputs batch.nets → OffsetTable N offsets.now
        → length N.outputs ≡ batch.outputs → BlockOf tests (class_of batch.class) batch.records → VectorsOf N tests batch.records vectors.now
        → MarksTrue N tests batch.records rising_lists.new falling_lists.new marks.new)
        × WorkKept work.old work.new }
{
    let inputs = batch.inputs;
    let outputs = batch.outputs;
    let records = batch.records;
    let shape = Shape {
        inputs,
        nets: batch.nets,
        outputs,
    };
    let firsts = transpose(vectors, 0, records, inputs);
    let lasts = transpose(vectors, 64, records, inputs);
    words::input_words(&firsts, &lasts, inputs, records, work);
    let mut rising_lens = [0u16; 64];
    let mut falling_lens = [0u16; 64];
    words::gate_lists(
        table,
        shape,
        batch.class,
        work,
        rising_lists,
        falling_lists,
        &mut rising_lens,
        &mut falling_lens,
    );
    let rises = live_outputs(offsets, inputs, outputs, work, RISES);
    write_marks(vectors, records, 0, &rising_lens, &rises, marks);
    let falls = live_outputs(offsets, inputs, outputs, work, FALLS);
    write_marks(vectors, records, 64, &falling_lens, &falls, marks);
}
