// The lines of a store that all pairs left, and its first faults. Each caller proves what a function requires.
ghost use Rattle.std.specs.Prelude.{◌≡◌, [], ◌^◌, ◌≤◌, length};
ghost use Rattle.io.specs.Counts.{IsPrefixLen};
ghost use Rattle.model.specs.Store.{empty_store};
ghost use Rattle.store_words.specs.Sound.{SoundWords};
ghost use Rattle.exhaust_undetected.specs.Undetected.{listed};
ghost use Rattle.text_buffer.specs.Written.{Written};
ghost use Rattle.listing_text.specs.StoreText.{out_bytes};
ghost use Rattle.exhaust_text.specs.BlockText.{zero_work, block_lines, list_of};

use crate::FaultList;
use exhaust_undetected::inner::{LISTED, count_undetected, first_undetected};
use exhaust_undetected_text::count_line;
use listing_text::inner::put_store;
use model::{STORE_WORDS, WORK_WORDS};
use text_buffer::inner::put_line;

// Zeros for a store, for working memory and for a list.
pub(crate) fn no_store() -> [u64; STORE_WORDS]
    ensures { result ≡ empty_store }
{
    [0; STORE_WORDS]
}

pub(crate) fn no_work() -> [u64; WORK_WORDS]
    ensures { result ≡ zero_work }
{
    [0; WORK_WORDS]
}

pub(crate) fn no_faults() -> FaultList
    ensures result_value { list_of result ≡ [] }
    ensures prefix_len { IsPrefixLen result.count result.numbers }
{
    FaultList {
        numbers: [0; LISTED],
        count: 0,
    }
}

// The runs and totals of a store, then how many faults of so many paths it does not hold.
pub(crate) fn put_lines(store: &[u64], paths: u64, out: &mut [u8]) -> usize
    requires { SoundWords paths store.now × (paths ≤ 2 ^ 62) × (out_bytes ≤ length out.old) }
    ensures { Written out.old out.new 0 (block_lines store.now paths) result }
{
    let end = put_store(out, store);
    put_line(out, end, count_line(count_undetected(store, paths)))
}

// The first faults that it does not hold.
pub(crate) fn list_faults(store: &[u64], paths: u64) -> FaultList
    requires { SoundWords paths store.now × (paths ≤ 2 ^ 62) }
    ensures result_value { list_of result ≡ listed store.now paths }
    ensures prefix_len { IsPrefixLen result.count result.numbers }
{
    let mut numbers = [0u64; LISTED];
    let count = first_undetected(store, paths, &mut numbers);
    FaultList { numbers, count }
}
