// The words of a script as numbers: the letters of a word, two hexadecimal digits each, as `words::key_of` gives them.

// A stated answer.
pub(crate) const REFUSED: u64 = 0x72656675736564;

pub(crate) const ACCEPTED: u64 = 0x6163636570746564;

// Memory. The program knows that of the tree, whose calls begin with it.
pub(crate) const NETLIST: u64 = 0x6e65746c697374;

pub(crate) const TESTS: u64 = 0x7465737473;

pub(crate) const REPORT: u64 = 0x7265706f7274;

pub(crate) const STORE: u64 = 0x73746f7265;

pub(crate) const WORK: u64 = 0x776f726b;

pub(crate) const PATH: u64 = 0x70617468;

pub const TREE: u64 = 0x74726565;

pub(crate) const VIEW: u64 = 0x76696577;

pub(crate) const PLACES: u64 = 0x706c61636573;

// What is done with a memory.
pub(crate) const IS: u64 = 0x6973;

pub(crate) const ADD: u64 = 0x616464;

pub(crate) const CUT: u64 = 0x637574;

pub(crate) const SET: u64 = 0x736574;

pub(crate) const FILL: u64 = 0x66696c6c;

// What is asked of a memory.
pub(crate) const AT: u64 = 0x6174;

pub(crate) const COUNT: u64 = 0x636f756e74;

pub(crate) const BEGINS: u64 = 0x626567696e73;

// What is done with the netlist alone.
pub(crate) const CHAIN: u64 = 0x636861696e;

// What is done with the store alone, and asked of it.
pub(crate) const KEEP: u64 = 0x6b656570;

pub(crate) const KEPT: u64 = 0x6b657074;
