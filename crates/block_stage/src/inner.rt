// Each caller proves what a function requires.
pub mod listed;
pub mod spans;

ghost use Rattle.std.specs.Prelude.{ℕ};
ghost use Rattle.model.specs.Netlist.{Netlist};
ghost use Rattle.model.specs.Detect.{Test};
ghost use Rattle.store_coverage.specs.Stage.{MemoryReady};
ghost use Rattle.block_stage.specs.BlockStage.{BlockAt, BlockReady, BlockTaken, MemoryKept};

use crate::inner::listed::{apply_listed, edges_at};
use crate::inner::spans::begin_spans;
use block_activity::inner::Batch;
use block_activity::inner::layout::{
    DOWN_LENGTHS_AT, MARKS_SIZE, OFFSET_TABLE_SIZE, UP_LENGTHS_AT,
};
use block_intervals::layout::SPANS_SIZE;
use block_words::inner::layout::{GATE_TABLE_SIZE, LIST_SIZE};
use model::Refusal;

// The number of records taken before the first that was refused, all of them if none was, and what they answer.
#[derive(Drop)]
pub struct Applied {
    pub taken: usize,
    pub answer: Result<(), Refusal>,
}

// The place Work with the records of a block in order, each on the store that the one before it left.
pub fn apply_block(
    table: &[u16; GATE_TABLE_SIZE],
    offsets: &[u64; OFFSET_TABLE_SIZE],
    rising_lists: &[u32],
    falling_lists: &[u32],
    marks: &[u64; MARKS_SIZE],
    batch: Batch,
    store: &mut [u64],
    work: &mut [u64],
) -> Applied
    requires { BlockReady table.now offsets.now rising_lists.now falling_lists.now marks.now batch store.old work.old }
    ensures { MemoryKept store.new work.old work.new
        × ((N : Netlist) (tests : ℕ → Test)
        → BlockAt N tests table.now offsets.now rising_lists.now falling_lists.now marks.now batch
        → MemoryReady N store.old work.old
        → BlockTaken result N tests batch.records store.old store.new) }
{
    let inputs = batch.inputs;
    let outputs = batch.outputs;
    let records = batch.records;
    let mut spans = [0u64; SPANS_SIZE];
    begin_spans(offsets, inputs, outputs, store, &mut spans);
    for t in 0..records {
        let at = LIST_SIZE * t;
        let up = &rising_lists[at..at + marks[UP_LENGTHS_AT + t] as usize];
        let down = &falling_lists[at..at + marks[DOWN_LENGTHS_AT + t] as usize];
        let edges = edges_at(marks, t, inputs, outputs);
        let stage = apply_listed(table, offsets, up, down, edges, store, &mut spans, work);
        match stage {
            Err(why) => {
                let answer = Err(why);
                return Applied { taken: t, answer };
            }
            Ok(()) => {}
        }
    }
    let answer = Ok(());
    Applied {
        taken: records,
        answer,
    }
}
