// The calls' words as numbers: the letters of a word, two hexadecimal digits each, as `case_script::words::key_of` gives them.

// Verbs of more than one kind of calls. `empty` is also one that writes a store.
pub const EMPTY: u64 = 0x656d707479;

pub const HOLDS: u64 = 0x686f6c6473;

pub const TOTALS: u64 = 0x746f74616c73;

// Calls that only read.
pub(crate) const SURVEY: u64 = 0x737572766579;

pub(crate) const COUNTS: u64 = 0x636f756e7473;

pub(crate) const NUMBER: u64 = 0x6e756d626572;

pub(crate) const RISING: u64 = 0x726973696e67;

pub(crate) const FALLING: u64 = 0x66616c6c696e67;

pub(crate) const FAULT: u64 = 0x6661756c74;

pub(crate) const LENGTHS: u64 = 0x6c656e67746873;

pub(crate) const PATHS: u64 = 0x7061746873;

pub(crate) const HELD: u64 = 0x68656c64;

// Calls that write something else than a store.
pub(crate) const FIND: u64 = 0x66696e64;

pub(crate) const WRITE: u64 = 0x7772697465;

pub(crate) const BENCH: u64 = 0x62656e6368;

pub(crate) const LOAD: u64 = 0x6c6f6164;

// Calls of a viewer.
pub(crate) const VIEWER: u64 = 0x766965776572;

pub(crate) const RUNS: u64 = 0x72756e73;

// Calls on a tree.
pub(crate) const INSERT: u64 = 0x696e73657274;

pub(crate) const DELETE: u64 = 0x64656c657465;

pub(crate) const TURNS: u64 = 0x7475726e73;

pub(crate) const SEARCH: u64 = 0x736561726368;

pub(crate) const TOTAL: u64 = 0x746f74616c;

pub(crate) const EACH: u64 = 0x65616368;

// Calls that write a store.
pub(crate) const TEST: u64 = 0x74657374;

pub(crate) const FIRST: u64 = 0x6669727374;

pub(crate) const AUDIT: u64 = 0x6175646974;

pub(crate) const CLASS: u64 = 0x636c617373;

pub(crate) const EXHAUST: u64 = 0x65786861757374;
