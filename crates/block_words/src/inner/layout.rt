// Where things stand in the tables of a block of records.
// The table of gates has eight places for the nets at the pins of each of 512 gates; then their kinds; then their numbers of pins.
pub const KINDS_AT: usize = 4096;

pub const PIN_COUNTS_AT: usize = 4608;

pub const GATE_TABLE_SIZE: usize = 5120;

// The places of a record's list of live gates: 528 and not 512, so that the lists do not fall on the same cache lines.
pub const LIST_SIZE: usize = 528;

// Those of the lists of 64 records.
pub const LISTS_SIZE: usize = 64 * LIST_SIZE;
