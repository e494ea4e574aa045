// The lines of a piece's records. Each caller proves what a function requires.
ghost use Rattle.std.specs.Prelude.{◌≡◌, ◌+◌, ◌≤◌, min};
ghost use Rattle.listing_blocks.specs.Answers.{PieceReady, PieceLines};

use crate::blocks::list_blocks;
use audit_block::inner::fill_tables;
use block_activity::inner::layout::OFFSET_TABLE_SIZE;
use block_words::inner::layout::GATE_TABLE_SIZE;
use netlist::inner::Loaded;

// The most bytes of the lines of a block: it has at most 64 records, and a line at most 63 bytes.
pub const BLOCK_BYTES: usize = 4032;

// How far a piece is listed: the place of the next record, the bytes of the piece before it, and the bytes of the lines in the buffer.
#[derive(Drop)]
pub struct Listed {
    pub place: u64,
    pub used: usize,
    pub bytes: usize,
}

// Where the record that begins at a place of a file ends: the last may be short.
pub(crate) fn record_end(at: usize, bytes: usize, length: usize) -> usize
    requires { at ≤ length }
    ensures { result ≡ min (at + bytes) length }
{
    if length - at < bytes {
        return length;
    }
    at + bytes
}

// The lines of a piece's records, judged in a class, from where it is listed to and as far as the buffer has room, on a sound store; the store is left as
// they leave it.
pub fn list_piece(
    netlist: &[u8],
    tables: Loaded,
    from: Listed,
    piece: &[u8],
    class: u32,
    store: &mut [u64],
    work: &mut [u64],
    out: &mut [u8],
) -> Listed
    requires { PieceReady netlist.now tables from piece.now store.old work.old out.old }
    ensures { PieceLines from result netlist.now tables class piece.now store.old store.new
        work.old work.new out.old out.new }
{
    let positions = tables.positions;
    let counts = tables.counts;
    let shape = tables.shape;
    let mut table = [0u16; GATE_TABLE_SIZE];
    let mut offsets = [0u64; OFFSET_TABLE_SIZE];
    let numbers = fill_tables(
        netlist,
        &positions,
        &counts,
        shape,
        class,
        &mut table,
        &mut offsets,
    );
    list_blocks(&table, &offsets, numbers, from, piece, store, work, out)
}
