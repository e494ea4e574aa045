// The records of a block read, the path offsets of a netlist's pins and outputs, and the marks of each record. Each caller proves what a function requires.
pub mod layout;
pub mod marks;
pub mod offsets;
pub mod reading;

use model::Refusal;

// What reading a block yields: the number of its legal records, and what the checks answer of the one after them.
#[derive(Drop)]
pub struct ReadRecords {
    pub records: usize,
    pub after: Result<(), Refusal>,
}

// A block's numbers: those of the netlist, the number of its records and their class.
#[derive(Clone, Copy)]
pub struct Batch {
    pub inputs: usize,
    pub nets: usize,
    pub outputs: usize,
    pub records: usize,
    pub class: u32,
}
