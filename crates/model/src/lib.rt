// What the crates share: the papers' refusals, and the sizes that they name. What the calls mean stands in specs/.
#![tactic(auto)]

ghost use Rattle.std.specs.Prelude.{◌≡◌};
ghost use Rattle.model.specs.Read.{within};

// The words of a store: two numbers of runs, the number of tests taken, then the places of each edge.
pub const HEAD_WORDS: usize = 3;

pub const TESTS_WORD: usize = 2;

pub const PLACE_WORDS: usize = 2048;

pub const STORE_WORDS: usize = 4099;

// The most runs of an edge, in a store and in working memory.
pub const MAX_RUNS: usize = 1024;

// The most tests that a store counts, and the most records of a test file.
pub const MAX_TESTS: u64 = 0xffff_ffff;

// The least words of working memory.
pub const WORK_WORDS: usize = 8192;

// The words of a path buffer that are filled.
pub const PATH_WORDS: usize = 513;

// The least bytes of a report buffer.
pub const REPORT_BYTES: usize = 32802;

// No count and no total passes this: 2^62.
pub const MAX_COUNT: u64 = 0x4000_0000_0000_0000;

// The classes of tests by their numbers.
pub const NON_ROBUST: u32 = 1;

pub const ROBUST: u32 = 2;

// Why a call is refused, a case for each condition of document 01's table, then for those of document 02.
#[derive(Clone, Copy)]
pub enum Refusal {
    StoreLength,
    WorkLength,
    PathBufferLength,
    ReportBufferLength,
    Header,
    HeaderRange,
    GateCut,
    GateKind,
    PinCount,
    PinNotLower,
    CountOverLimit,
    OutputCut,
    OutputNet,
    BytesLeftOver,
    TotalOverLimit,
    RecordLength,
    RecordMark,
    SpareBit,
    TestFileLength,
    RunCount,
    RunRange,
    WordPastRuns,
    WorkingRuns,
    StoreRuns,
    NoSuchNumber,
    NotAPath,
    ReportMark,
    ReportLength,
    ReportBytes,
    NetlistBufferLength,
    BenchLine,
    BenchName,
    BenchCount,
    UnknownClass,
    PathTooLong,
    UnchangedPair,
    TestsFull,
    TreeLength,
    TreeWords,
    ViewerPlaces,
    ForeignFault,
    TooManyInputs,
}

// Class 1 or 2.
pub fn known_class(class: u32) -> bool
    ensures { result ≡ within 1 2 class }
{
    NON_ROBUST <= class && class <= ROBUST
}
