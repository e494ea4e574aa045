// The test stage with the records of a test file in order, in blocks of up to 64. Each caller proves what a function requires.
ghost use Rattle.store_coverage.specs.Stage.{StageReady};
ghost use Rattle.audit_block.specs.FileBlocks.{BlocksReady};
ghost use Rattle.audit_records.specs.FileRecords.{BlocksTaken, FileTaken};

use audit_block::inner::{FileNumbers, TakenRecords, fill_tables, take_block};
use block_activity::inner::layout::OFFSET_TABLE_SIZE;
use block_words::inner::layout::{GATE_TABLE_SIZE, LISTS_SIZE};
use netlist::inner::Shape;
use record_test::inner::record_length;
use store_writing::inner::clear;

// The test stage with all records of a file, block after block. A refused record ends them and empties the store.
fn apply_blocks(
    table: &[u16; GATE_TABLE_SIZE],
    offsets: &[u64; OFFSET_TABLE_SIZE],
    file: FileNumbers,
    tests: &[u8],
    rising_lists: &mut [u32],
    falling_lists: &mut [u32],
    store: &mut [u64],
    work: &mut [u64],
) -> TakenRecords
    requires { BlocksReady table.now offsets.now file rising_lists.old falling_lists.old store.old work.old }
    ensures { BlocksTaken result table.now offsets.now file tests.now
        store.old store.new work.old work.new }
{
    let bytes = record_length(file.inputs);
    let mut at = 0;
    let mut taken = 0;
    while bytes <= tests.len() - at {
        let block = take_block(
            table,
            offsets,
            file,
            &tests[at..],
            rising_lists,
            falling_lists,
            store,
            work,
        );
        let said = block.answer;
        match said {
            Err(why) => {
                clear(store);
                let answer = Err(why);
                return TakenRecords {
                    taken: taken + block.taken,
                    answer,
                };
            }
            Ok(()) => {
                at += bytes * block.taken;
                taken += block.taken;
            }
        }
    }
    let answer = Ok(());
    TakenRecords { taken, answer }
}

// The test stage with the records of a file in order, all in one class. A refused record ends them and empties the store.
pub fn apply_records(
    netlist: &[u8],
    positions: &[u16; 512],
    counts: &[u64; 512],
    shape: Shape,
    tests: &[u8],
    class: u32,
    store: &mut [u64],
    work: &mut [u64],
) -> TakenRecords
    requires { StageReady netlist.now positions.now counts.now shape store.old work.old }
    ensures { FileTaken result netlist.now positions.now counts.now shape class tests.now
        store.old store.new work.old work.new }
{
    let mut table = [0u16; GATE_TABLE_SIZE];
    let mut offsets = [0u64; OFFSET_TABLE_SIZE];
    let file = fill_tables(
        netlist,
        positions,
        counts,
        shape,
        class,
        &mut table,
        &mut offsets,
    );
    let mut rising_lists = [0u32; LISTS_SIZE];
    let mut falling_lists = [0u32; LISTS_SIZE];
    apply_blocks(
        &table,
        &offsets,
        file,
        tests,
        &mut rising_lists,
        &mut falling_lists,
        store,
        work,
    )
}
