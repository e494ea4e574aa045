// The pieces of a file: as many bytes as a space has for whole records, and a read of so many.
ghost use Rattle.std.specs.Prelude.{◌≡◌, ◌+◌, ◌%◌, ◌≤◌, ◌<◌, length};
ghost use Rattle.io.specs.Counts.{IsPrefixLen};

use program_files::{Opened, read_full};

// The bytes of the whole records in a space.
pub fn whole_part(space: usize, bytes: usize) -> usize
    requires { 2 ≤ bytes }
    ensures { (result ≤ space) × (result % bytes ≡ 0) × (space < result + bytes) }
{
    space - space % bytes
}

// The fewest bytes of a piece that another may follow.
pub fn full_piece(full: usize) -> usize
    ensures { (full ≤ result) × (1 ≤ result) }
{
    if full == 0 { 1 } else { full }
}

// Reads at most so many bytes of a file to the start of a space.
pub fn read_part(opened: &Opened, most: usize, space: &mut [u8]) -> usize
    requires { most ≤ length space.old }
    ensures prefix_len { IsPrefixLen result space.new }
    ensures upper_bound { result ≤ most }
{
    read_full(opened, &mut space[..most])
}
