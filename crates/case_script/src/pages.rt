// The memories of a script. Store and working memory are slices of words; the others lie in one slice of cells, one after the other.
ghost use Rattle.std.specs.Prelude.{◌≤◌};

use crate::names::{NETLIST, PATH, PLACES, REPORT, STORE, TESTS, TREE, VIEW, WORK};

// The cells of all others.
pub const CELLS: usize = 131072;

// Where a memory's cells begin and end, the greatest word that a cell may have, and the place of its length among the lengths.
#[derive(Drop)]
pub struct Page {
    pub start: usize,
    pub end: usize,
    pub most: u64,
    pub place: usize,
}

// How many cells of each memory the calls are handed, by the places below.
#[derive(Clone, Copy)]
pub struct Lengths {
    pub of: [usize; MEMORIES],
}

pub const MEMORIES: usize = 9;

pub const NETLIST_PLACE: usize = 0;

pub const TESTS_PLACE: usize = 1;

pub const REPORT_PLACE: usize = 2;

pub const STORE_PLACE: usize = 3;

pub const PATH_PLACE: usize = 4;

pub const WORK_PLACE: usize = 5;

pub const TREE_PLACE: usize = 6;

pub const VIEW_PLACE: usize = 7;

pub const PLACES_PLACE: usize = 8;

// The words of the greatest store. A copy of the store that is kept follows after them.
pub const STORE_WORDS: usize = 8192;

// Where the cells begin.
pub const NETLIST_START: usize = 0;

pub const TESTS_START: usize = 12288;

pub const PATH_START: usize = 13312;

pub const REPORT_START: usize = 14336;

pub const VIEW_START: usize = 57216;

pub const PLACES_START: usize = 65408;

pub const TREE_START: usize = 65536;

// A page.
fn page_at(start: usize, end: usize, most: u64, place: usize) -> Page {
    Page {
        start,
        end,
        most,
        place,
    }
}

// The page of a memory, by its name. Store and working memory have none of the cells, and any other word has no place, either.
pub fn page_of(name: u64) -> Page {
    match name {
        NETLIST => page_at(NETLIST_START, TESTS_START, 255, NETLIST_PLACE),
        TESTS => page_at(TESTS_START, PATH_START, 255, TESTS_PLACE),
        PATH => page_at(PATH_START, REPORT_START, 65535, PATH_PLACE),
        REPORT => page_at(REPORT_START, VIEW_START, 255, REPORT_PLACE),
        VIEW => page_at(VIEW_START, PLACES_START, u64::MAX, VIEW_PLACE),
        PLACES => page_at(PLACES_START, TREE_START, 65535, PLACES_PLACE),
        TREE => page_at(TREE_START, CELLS, u64::MAX, TREE_PLACE),
        STORE => page_at(0, 0, 0, STORE_PLACE),
        WORK => page_at(0, 0, 0, WORK_PLACE),
        _ => page_at(0, 0, 0, MEMORIES),
    }
}

// The length of a memory, by its place.
pub fn length_at(lengths: Lengths, place: usize) -> usize {
    lengths.of.get(place).copied().unwrap_or(0)
}

// A part of the cells; none where they go past the end.
pub fn part(cells: &[u64], start: usize, length: usize) -> &[u64] {
    if cells.len() < start {
        return &cells[0..0];
    }
    if cells.len() - start < length {
        return &cells[0..0];
    }
    let end = start + length;
    &cells[start..end]
}

// The end of a memory.
pub fn end_of(start: usize, length: usize) -> usize
    requires { start ≤ 65536 }
    ensures { start ≤ result }
{
    if 65536 < length {
        return start;
    }
    start + length
}
