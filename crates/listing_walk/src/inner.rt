// The listing's walk over a test file, for the listing program: a caller proves what a function requires.
ghost use Rattle.std.specs.Prelude.{◌≡◌, ◌≤◌, length};
ghost use Rattle.model.specs.Store.{empty_store};
ghost use Rattle.listing_blocks.specs.Answers.{ListReady};
ghost use Rattle.listing_walk.specs.ListingWalk.{piece_bytes, LinesWaiting, FileListed};

use listing_piece::inner::{Lines, list_read};
use listing_text::inner::put_store;
use netlist::inner::Loaded;
use program_files::{Opened, at_end, end_progress, file_size, show_progress};
use record_test::inner::record_length;
use std::io::{IsTerminal, Stderr, Stdout};
use testfile_reading::inner::{full_piece, read_part, whole_part};

// No file has more bytes: it is the largest size that the system tells. What a pipe brings after so many is not read.
const MOST_BYTES: u64 = 0x7FFF_FFFF_FFFF_FFFF;

// The descriptor of standard output.
const STDOUT_FILENO: i32 = 1;

// The files of a listing: the test file is read from the first, the lines are written to standard output, and progress is shown on standard error.
#[derive(Clone, Copy)]
pub struct ListingFiles<'a> {
    pub from: &'a Opened,
    pub to: Stdout,
    pub progress: Stderr,
}

// A test file whose records were listed: its bytes, the place after its last record, the bytes of the lines that wait, and whether it was read whole.
#[derive(Drop)]
pub struct ListedPieces {
    pub bytes: u64,
    pub place: u64,
    pub waiting: usize,
    pub whole: bool,
}

// The same with all of its lines written, and where those after them end in the buffer.
#[derive(Drop)]
pub struct ListedFile {
    pub bytes: u64,
    pub place: u64,
    pub end: usize,
    pub whole: bool,
}

// Whether the number of records is shown while they are listed: on a terminal, unless their lines go to one and show it.
fn shows_progress(to: Stdout, progress: Stderr) -> bool {
    !to.is_terminal() && progress.is_terminal()
}

// Shows how many records are listed.
fn show_listed(progress: Stderr, shown: bool, place: u64) {
    if shown && 0 < place {
        show_progress(progress, place - 1);
    }
}

// The lines of the records of a file, all in one class, piece by piece. A piece that is not full is the last; the file was then read whole, unless a read
// failed, more bytes came or its size is another.
fn list_pieces(
    files: ListingFiles<'_>,
    netlist: &[u8],
    loaded: Loaded,
    class: u32,
    space: &mut [u8],
    store: &mut [u64],
    work: &mut [u64],
    out: &mut [u8],
) -> ListedPieces
    requires { ListReady netlist.now loaded store.old work.old out.old × (store.old ≡ empty_store) × (length space.old ≤ piece_bytes) }
    ensures { LinesWaiting result.bytes result.place result.waiting netlist.now loaded class space.new store.new
        work.old work.new out.new }
{
    let ListingFiles { from, to, progress } = files;
    let full = whole_part(space.len(), record_length(loaded.shape.inputs));
    let size = file_size(from);
    let shown = shows_progress(to, progress);
    let mut lines = Lines {
        to: STDOUT_FILENO,
        place: 1,
        bytes: 0,
    };
    let mut so_far: u64 = 0;
    while so_far <= MOST_BYTES {
        let n = read_part(from, full, space);
        lines = list_read(lines, netlist, loaded, class, &space[..n], store, work, out);
        so_far += n as u64;
        if n < full_piece(full) {
            return ListedPieces {
                bytes: so_far,
                place: lines.place,
                waiting: lines.bytes,
                whole: at_end(from, size),
            };
        }
        show_listed(progress, shown, lines.place);
    }
    ListedPieces {
        bytes: so_far,
        place: lines.place,
        waiting: lines.bytes,
        whole: false,
    }
}

// Writes the lines of the records of a file to standard output, from an empty store on; the buffer then begins with the lines after them.
pub fn list_file(
    files: ListingFiles<'_>,
    netlist: &[u8],
    loaded: Loaded,
    class: u32,
    space: &mut [u8],
    store: &mut [u64],
    work: &mut [u64],
    out: &mut [u8],
) -> ListedFile
    requires { ListReady netlist.now loaded store.old work.old out.old × (store.old ≡ empty_store) × (length space.old ≤ piece_bytes) }
    ensures { FileListed result netlist.now loaded class space.new store.new work.old work.new out.new }
{
    let listed = list_pieces(files, netlist, loaded, class, space, store, work, out);
    end_progress(files.progress);
    let waiting = listed.waiting;
    io::write_all(STDOUT_FILENO, &out[..waiting]);
    let end = put_store(out, store);
    ListedFile {
        bytes: listed.bytes,
        place: listed.place,
        end,
        whole: listed.whole,
    }
}
