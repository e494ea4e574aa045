// Where things stand among the spans of a record.
// For each of 512 nets: the place of its first run; then the place after its last; then by how much its runs are higher than those that stand there.
pub const ENDS_AT: usize = 512;

pub const SHIFTS_AT: usize = 1024;

// Then the sections of each edge: output o's begins at place o, and the last ends at place 64. At place 65 a bit for each of the first outputs whose path numbers
// all lie in the first held run.
pub const RISING_SECTIONS: usize = 1536;

pub const FALLING_SECTIONS: usize = 1602;

// The places of the sections of both edges, and all places.
pub const SECTIONS_SIZE: usize = 132;

pub const SPANS_SIZE: usize = 1668;
