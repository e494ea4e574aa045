// Where things stand in the table of path offsets and in the marks of a block's records.
// The table has eight places for the pins of each of 512 gates; then the paths before each of 64 outputs; then the outputs' nets.
pub const OUTPUT_OFFSETS_AT: usize = 4096;

pub const OUTPUT_NETS_AT: usize = 4160;

pub const OFFSET_TABLE_SIZE: usize = 4224;

// The marks have a place for each of 64 records, for the inputs that rise, then for those that fall; then for the live outputs of the rising and of the falling
// edge; then for the lengths of the lists of both.
pub const UP_OUTS_AT: usize = 128;

pub const DOWN_OUTS_AT: usize = 192;

pub const UP_LENGTHS_AT: usize = 256;

pub const DOWN_LENGTHS_AT: usize = 320;

pub const MARKS_SIZE: usize = 384;
