// The length of a test file, and the place Report. Each caller proves what a function requires.
ghost use Rattle.std.specs.Prelude.{◌≡◌, ◌+◌, ◌*◌, ◌^◌, ◌≤◌, ◌<◌, length};
ghost use Rattle.model.specs.Base.{passes};
ghost use Rattle.model.specs.Read.{vector_bytes_of};
ghost use Rattle.model.specs.Store.{store_words_count};
ghost use Rattle.store_words.specs.Sound.{SoundWords};
ghost use Rattle.audit_judging.specs.FileJudging.{whole_length_of, Judged, ended_of, end_legal_of};

use model::{MAX_TESTS, Refusal};
use model_refusals::refusal_number;
use record_test::inner::record_length;
use report::inner::compare;
use store_words::inner::check_words;
use store_writing::inner::clear;

// Whether so many bytes are a whole number of records, of `each` bytes, and not too many of them.
pub fn whole_length(bytes: u64, each: u64) -> bool
    requires { 0 < each }
    ensures { result ≡ whole_length_of each bytes }
{
    bytes % each == 0 && bytes / each <= MAX_TESTS
}

// The place Report: a report against the one that the writer gives for a sound store and so many tests. A refused one leaves the store empty.
pub fn judge(report: &[u8], tests: u64, paths: u64, store: &mut [u64]) -> Result<(), Refusal>
    requires { SoundWords (2 ^ 62) store.old }
    ensures { Judged result tests paths report.now store.old store.new }
{
    let compared = compare(report, store, tests, paths);
    match compared {
        Ok(()) => Ok(()),
        Err(why) => {
            clear(store);
            Err(why)
        }
    }
}

// The end of an audit in pieces on a legal netlist with so many inputs and paths: the length of the file, the first refusal of its pieces, the store, the report.
pub fn end_legal(
    inputs: usize,
    paths: u64,
    bytes: u64,
    first: u32,
    report: &[u8],
    store: &[u64],
) -> Result<(), u32>
    requires { (inputs ≤ 64) × (paths ≤ 2 ^ 62) × (length store.now ≡ store_words_count) }
    ensures { ended_of result ≡ passes (end_legal_of (2 + 2 * vector_bytes_of inputs) paths bytes first report.now store.now) }
{
    let each = record_length(inputs) as u64;
    if !whole_length(bytes, each) {
        return Err(refusal_number(Refusal::TestFileLength));
    }
    if first != 0 {
        return Err(first);
    }
    let checked = check_words(store, paths);
    match checked {
        Err(why) => Err(refusal_number(why)),
        Ok(()) => {
            let compared = compare(report, store, bytes / each, paths);
            match compared {
                Ok(()) => Ok(()),
                Err(why) => Err(refusal_number(why)),
            }
        }
    }
}
