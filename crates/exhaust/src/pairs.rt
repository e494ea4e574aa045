// The test stage with all pairs of a few inputs, those of one V1 at a time, on the tables of a netlist. Each caller proves what a function requires.
ghost use Rattle.std.specs.Prelude.{◌^◌, ◌≤◌, ◌<◌};
ghost use Rattle.exhaust_pairs.specs.Exhaust.{most_inputs};
ghost use Rattle.audit_block.specs.FileBlocks.{BlocksReady};
ghost use Rattle.exhaust.specs.PairsTaken.{WithTaken, AllTaken};

use audit_block::inner::{FileNumbers, apply_tests};
use block_activity::inner::Batch;
use block_activity::inner::layout::OFFSET_TABLE_SIZE;
use block_words::inner::layout::GATE_TABLE_SIZE;
use exhaust_pairs::inner::{put_pairs, vectors_of};
use model::Refusal;
use store_writing::inner::clear;

// The pairs of one V1. They are legal, so that none is written as a record and checked.
fn apply_pairs_with(
    table: &[u16; GATE_TABLE_SIZE],
    offsets: &[u64; OFFSET_TABLE_SIZE],
    numbers: FileNumbers,
    first: usize,
    rising_lists: &mut [u32],
    falling_lists: &mut [u32],
    store: &mut [u64],
    work: &mut [u64],
) -> Result<(), Refusal>
    requires blocks_ready { BlocksReady table.now offsets.now numbers rising_lists.old falling_lists.old store.old work.old }
    requires inputs_le_most_inputs { (numbers.inputs ≤ most_inputs) × (first < 2 ^ numbers.inputs) }
    ensures { WithTaken result table.now offsets.now numbers first rising_lists.old rising_lists.new
        falling_lists.old falling_lists.new store.old store.new work.old work.new }
{
    let mut vectors = [0u64; 128];
    let records = put_pairs(first, numbers.inputs, &mut vectors);
    let batch = Batch {
        inputs: numbers.inputs,
        nets: numbers.nets,
        outputs: numbers.outputs,
        records,
        class: numbers.class,
    };
    let applied = apply_tests(
        table,
        offsets,
        batch,
        &vectors,
        rising_lists,
        falling_lists,
        store,
        work,
    );
    applied.answer
}

// All pairs, V1 counted upward. A refusal ends them and empties the store.
pub(crate) fn apply_all_pairs(
    table: &[u16; GATE_TABLE_SIZE],
    offsets: &[u64; OFFSET_TABLE_SIZE],
    numbers: FileNumbers,
    rising_lists: &mut [u32],
    falling_lists: &mut [u32],
    store: &mut [u64],
    work: &mut [u64],
) -> Result<(), Refusal>
    requires blocks_ready { BlocksReady table.now offsets.now numbers rising_lists.old falling_lists.old store.old work.old }
    requires inputs_le_most_inputs { numbers.inputs ≤ most_inputs }
    ensures { AllTaken result table.now offsets.now numbers store.old store.new work.old work.new }
{
    let count = vectors_of(numbers.inputs);
    for first in 0..count {
        let said = apply_pairs_with(
            table,
            offsets,
            numbers,
            first,
            rising_lists,
            falling_lists,
            store,
            work,
        );
        match said {
            Err(why) => {
                clear(store);
                return Err(why);
            }
            Ok(()) => {}
        }
    }
    Ok(())
}
