// The records of a piece in blocks of up to 64, with the lists of a block in lent memory: for each record what it adds, or why it is refused. Each caller
// proves what a function requires.
ghost use Rattle.audit_block.specs.FileBlocks.{BlocksReady};
ghost use Rattle.listing_blocks.specs.BlockLines.{NextIs, PartDone, ListBlocksReady, BlocksListed};

use crate::inner::{BLOCK_BYTES, Listed, record_end};
use audit_block::inner::FileNumbers;
use block_activity::inner::Batch;
use block_activity::inner::layout::{MARKS_SIZE, OFFSET_TABLE_SIZE};
use block_activity::inner::marks::fill_block;
use block_activity::inner::reading::read_block;
use block_counting::inner::count_block;
use block_words::inner::layout::{GATE_TABLE_SIZE, LISTS_SIZE};
use listing_lines::inner::put_lines;
use model::Refusal;
use model_refusals::refusal_number;
use record_test::inner::record_length;

// The records with which a part of a piece begins: their number, their bytes, and the words of their answers, as a block's answers have them.
#[derive(Drop)]
pub struct PartAnswers {
    pub lines: usize,
    pub used: usize,
    pub answers: [u64; 192],
}

// Why the record after those of a block is refused: by its checks, or for it is short. Legal where none begins or the block is full.
fn next_answer(
    after: Result<(), Refusal>,
    records: usize,
    used: usize,
    length: usize,
) -> Result<(), Refusal>
    ensures { NextIs after records used length result }
{
    if 64 <= records {
        return Ok(());
    }
    after?;
    if used < length {
        return Err(Refusal::RecordLength);
    }
    Ok(())
}

// The test stage with the records of a block, with which a part of a piece begins, and with the one after them where that is refused.
pub(crate) fn count_part(
    table: &[u16; GATE_TABLE_SIZE],
    offsets: &[u64; OFFSET_TABLE_SIZE],
    numbers: FileNumbers,
    part: &[u8],
    rises: &mut [u32],
    falls: &mut [u32],
    store: &mut [u64],
    work: &mut [u64],
) -> PartAnswers
    requires { BlocksReady table.now offsets.now numbers rises.old falls.old store.old work.old }
    ensures { PartDone result table.now offsets.now numbers part.now rises.old rises.new
        falls.old falls.new store.old store.new work.old work.new }
{
    let inputs = numbers.inputs;
    let mut both = [0u64; 128];
    let mut marks = [0u64; MARKS_SIZE];
    let read = read_block(part, inputs, &mut both);
    let records = read.records;
    let batch = Batch {
        inputs,
        nets: numbers.nets,
        outputs: numbers.outputs,
        records,
        class: numbers.class,
    };
    fill_block(table, offsets, batch, &both, rises, falls, &mut marks, work);
    let mut answers = count_block(table, offsets, rises, falls, &marks, batch, store, work);
    let bytes = record_length(inputs);
    let after = read.after;
    let next = next_answer(after, records, bytes * records, part.len());
    match next {
        Err(why) => {
            answers[128 + records] = refusal_number(why) as u64;
            let used = record_end(bytes * records, bytes, part.len());
            let lines = records + 1;
            PartAnswers {
                lines,
                used,
                answers,
            }
        }
        Ok(()) => {
            let used = bytes * records;
            let lines = records;
            PartAnswers {
                lines,
                used,
                answers,
            }
        }
    }
}

// The lines of a piece's records from where it is listed to, block after block while the buffer has room for the lines of another.
pub(crate) fn list_blocks(
    table: &[u16; GATE_TABLE_SIZE],
    offsets: &[u64; OFFSET_TABLE_SIZE],
    numbers: FileNumbers,
    from: Listed,
    piece: &[u8],
    store: &mut [u64],
    work: &mut [u64],
    out: &mut [u8],
) -> Listed
    requires { ListBlocksReady table.now offsets.now numbers from piece.now store.old work.old out.old }
    ensures { BlocksListed from result table.now offsets.now numbers piece.now store.old store.new
        work.old work.new out.old out.new }
{
    let mut rising_lists = [0u32; LISTS_SIZE];
    let mut falling_lists = [0u32; LISTS_SIZE];
    let mut place = from.place;
    let mut used = from.used;
    let mut bytes = from.bytes;
    while used < piece.len() {
        if out.len() - bytes < BLOCK_BYTES {
            return Listed { place, used, bytes };
        }
        let part = &piece[used..];
        let block = count_part(
            table,
            offsets,
            numbers,
            part,
            &mut rising_lists,
            &mut falling_lists,
            store,
            work,
        );
        let answers = block.answers;
        bytes = put_lines(out, bytes, place, &answers, block.lines);
        place += block.lines as u64;
        used += block.used;
    }
    Listed { place, used, bytes }
}
