// The lines of a piece, which go to a descriptor: a caller proves what a function requires.
ghost use Rattle.std.specs.Prelude.{◌≤◌, length};
ghost use Rattle.listing_blocks.specs.Answers.{block_bytes};
ghost use Rattle.listing_piece.specs.PieceListing.{WrittenFull, ReadReady, ReadListed};

use listing_blocks::inner::{BLOCK_BYTES, Listed, list_piece};
use netlist::inner::Loaded;

// The lines of a listing: where they go, the place of the next record, and how many bytes of lines wait in the buffer.
#[derive(Drop)]
pub struct Lines {
    pub to: i32,
    pub place: u64,
    pub bytes: usize,
}

// Writes the lines in the buffer where those of another block might not fit after them.
fn write_full(to: i32, listed: Listed, out: &[u8]) -> Listed
    requires { (listed.bytes ≤ length out.now) × (block_bytes ≤ length out.now) }
    ensures { WrittenFull listed result out.now }
{
    let Listed { place, used, bytes } = listed;
    if out.len() - bytes < BLOCK_BYTES {
        io::write_all(to, &out[..bytes]);
        return Listed {
            place,
            used,
            bytes: 0,
        };
    }
    listed
}

// The lines of the records of a piece, all in one class, after those that wait in the buffer, which is written whenever it is full.
pub fn list_read(
    lines: Lines,
    netlist: &[u8],
    loaded: Loaded,
    class: u32,
    piece: &[u8],
    store: &mut [u64],
    work: &mut [u64],
    out: &mut [u8],
) -> Lines
    requires { ReadReady lines.place lines.bytes netlist.now loaded piece.now store.old work.old out.old }
    ensures { ReadListed lines.place lines.bytes result.place result.bytes netlist.now loaded class piece.now
        store.old store.new work.old work.new out.old out.new }
{
    let to = lines.to;
    let mut at = Listed {
        place: lines.place,
        used: 0,
        bytes: lines.bytes,
    };
    while at.used < piece.len() {
        let more = list_piece(netlist, loaded, at, piece, class, store, work, out);
        at = write_full(to, more, out);
    }
    Lines {
        to,
        place: at.place,
        bytes: at.bytes,
    }
}
