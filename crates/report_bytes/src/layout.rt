// The layout of the report record.

// The bytes 52 50, low byte first.
pub const REPORT_MARK: u64 = 0x5052;

// Where the fields before the runs begin.
pub const TESTS_AT: usize = 2;

pub const PATHS_AT: usize = 6;

pub const RISING_RUNS_AT: usize = 14;

pub const FALLING_RUNS_AT: usize = 16;

pub const RISING_FAULTS_AT: usize = 18;

pub const FALLING_FAULTS_AT: usize = 26;

// The bytes before the runs, those of a run, and those of its low or its high.
pub const HEAD_BYTES: usize = 34;

pub const RUN_BYTES: usize = 16;

pub const WORD_BYTES: usize = 8;
