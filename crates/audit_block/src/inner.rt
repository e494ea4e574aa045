// The test stage with up to 64 tests at a time, from their vectors or from the records of a test file, with the lists of a block in lent memory. Each caller
// proves what a function requires.
ghost use Rattle.std.specs.Prelude.{◌≡◌, length};
ghost use Rattle.netlist.specs.Tables.{SomeTables};
ghost use Rattle.block_words.specs.Layout.{gate_table_size};
ghost use Rattle.block_activity.specs.Layout.{offset_table_size};
ghost use Rattle.audit_block.specs.FileBlocks.{TablesMade, BlocksReady, BlockDone};
ghost use Rattle.audit_block.specs.VectorBlocks.{TestsReady, TestsTaken};

use block_activity::inner::Batch;
use block_activity::inner::layout::{MARKS_SIZE, OFFSET_TABLE_SIZE};
use block_activity::inner::marks::fill_block;
use block_activity::inner::offsets::fill_path_offsets;
use block_activity::inner::reading::read_block;
use block_stage::inner::{Applied, apply_block};
use block_words::inner::layout::GATE_TABLE_SIZE;
use block_words::inner::table::fill_table;
use model::Refusal;
use netlist::inner::Shape;

// The number of records taken before the first that was refused, all of them if none was, and what they answer.
#[derive(Clone, Copy)]
pub struct TakenRecords {
    pub taken: usize,
    pub answer: Result<(), Refusal>,
}

// The numbers of a netlist, and the class of a file's records.
#[derive(Clone, Copy)]
pub struct FileNumbers {
    pub inputs: usize,
    pub nets: usize,
    pub outputs: usize,
    pub class: u32,
}

// Makes the tables of a netlist, once for all blocks of tests of a class, from those that loading it left.
pub fn fill_tables(
    netlist: &[u8],
    positions: &[u16; 512],
    counts: &[u64; 512],
    shape: Shape,
    class: u32,
    table: &mut [u16; GATE_TABLE_SIZE],
    offsets: &mut [u64; OFFSET_TABLE_SIZE],
) -> FileNumbers
    requires { SomeTables netlist.now positions.now counts.now shape × (length table.old ≡ gate_table_size) × (length offsets.old ≡ offset_table_size) }
    ensures { TablesMade result netlist.now positions.now counts.now shape class table.new offsets.new }
{
    fill_table(netlist, positions, shape, table);
    fill_path_offsets(netlist, counts, shape, table, offsets);
    FileNumbers {
        inputs: shape.inputs,
        nets: shape.nets,
        outputs: shape.outputs,
        class,
    }
}

// The place Work with the tests of a block, from their vectors: V1 of test t at place t and V2 at place 64 + t.
pub fn apply_tests(
    table: &[u16; GATE_TABLE_SIZE],
    offsets: &[u64; OFFSET_TABLE_SIZE],
    batch: Batch,
    vectors: &[u64; 128],
    rising_lists: &mut [u32],
    falling_lists: &mut [u32],
    store: &mut [u64],
    work: &mut [u64],
) -> Applied
    requires { TestsReady table.now offsets.now batch vectors.now rising_lists.old falling_lists.old store.old work.old }
    ensures { TestsTaken result table.now offsets.now batch vectors.now rising_lists.old rising_lists.new
        falling_lists.old falling_lists.new store.old store.new work.old work.new }
{
    let mut marks = [0u64; MARKS_SIZE];
    fill_block(
        table,
        offsets,
        batch,
        vectors,
        rising_lists,
        falling_lists,
        &mut marks,
        work,
    );
    apply_block(
        table,
        offsets,
        rising_lists,
        falling_lists,
        &marks,
        batch,
        store,
        work,
    )
}

// The test stage with the records of a block, with which a part of the file begins: up to 64 of them, or to the first that is refused.
pub fn take_block(
    table: &[u16; GATE_TABLE_SIZE],
    offsets: &[u64; OFFSET_TABLE_SIZE],
    file: FileNumbers,
    part: &[u8],
    rises: &mut [u32],
    falls: &mut [u32],
    store: &mut [u64],
    work: &mut [u64],
) -> TakenRecords
    requires { BlocksReady table.now offsets.now file rises.old falls.old store.old work.old }
    ensures { BlockDone result table.now offsets.now file part.now rises.old rises.new
        falls.old falls.new store.old store.new work.old work.new }
{
    let mut vectors = [0u64; 128];
    let read = read_block(part, file.inputs, &mut vectors);
    let batch = Batch {
        inputs: file.inputs,
        nets: file.nets,
        outputs: file.outputs,
        records: read.records,
        class: file.class,
    };
    let applied = apply_tests(table, offsets, batch, &vectors, rises, falls, store, work);
    let said = applied.answer;
    match said {
        Err(why) => {
            let answer = Err(why);
            TakenRecords {
                taken: applied.taken,
                answer,
            }
        }
        Ok(()) => {
            let taken = read.records;
            let after = read.after;
            match after {
                Err(why) => {
                    let answer = Err(why);
                    TakenRecords { taken, answer }
                }
                Ok(()) => {
                    let answer = Ok(());
                    TakenRecords { taken, answer }
                }
            }
        }
    }
}
