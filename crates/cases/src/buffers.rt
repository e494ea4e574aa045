// Zeros for the memory of a script or of a call: a caller's proof sees the length alone.
ghost use Rattle.std.specs.Prelude.{◌≡◌, length};

use case_script::pages::CELLS;

// The cells of a script.
pub(crate) fn cells_buffer() -> [u64; CELLS]
    ensures { 131072 ≡ length result }
{
    [0; CELLS]
}

// The words of a store with its copy, or of working memory.
pub(crate) fn words_buffer() -> [u64; 16384]
    ensures { 16384 ≡ length result }
{
    [0; 16384]
}

// A netlist.
pub(crate) fn netlist_buffer() -> [u8; 16384]
    ensures { 16384 ≡ length result }
{
    [0; 16384]
}

// The bytes of a record in cells.
pub(crate) fn record_cells() -> [u64; 128]
    ensures { 128 ≡ length result }
{
    [0; 128]
}

// A record.
pub(crate) fn record_buffer() -> [u8; 128]
    ensures { 128 ≡ length result }
{
    [0; 128]
}

// The words of a path.
pub fn path_buffer() -> [u16; 1024]
    ensures { 1024 ≡ length result }
{
    [0; 1024]
}

// Test records, or .bench text.
pub fn tests_buffer() -> [u8; 1024]
    ensures { 1024 ≡ length result }
{
    [0; 1024]
}
