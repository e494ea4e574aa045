// A store's words asked once the netlist is read: the checks, then the question.
ghost use Rattle.std.specs.Prelude.{◌≡◌, ◌^◌, ◌≤◌, length};
ghost use Rattle.model.specs.Store.{store_words_count};
ghost use Rattle.store.specs.Answers.{totals_among, totals_on_of, fault_on_of};
ghost use Rattle.model.specs.Returned.{answer_of};

use model::Refusal;
use path_faults::{FaultNo, edge_of, path_of};
use store_words::inner::{StoreTotals, check_words, held, totals_of};

// The totals of a store's words, for path numbers 1 to `paths`.
pub(crate) fn totals_on(words: &[u64], paths: u64) -> Result<StoreTotals, Refusal>
    requires words_len { length words.now ≡ store_words_count }
    requires paths_bound { paths ≤ 2 ^ 62 }
    ensures { totals_among result ≡ totals_on_of paths words.now }
{
    check_words(words, paths)?;
    let held = totals_of(words);
    Ok(StoreTotals {
        rising: held.rising,
        falling: held.falling,
    })
}

// Whether a store's words hold a fault, for path numbers 1 to `paths`.
pub(crate) fn fault_on(words: &[u64], paths: u64, fault: FaultNo) -> Result<bool, Refusal>
    requires words_len { length words.now ≡ store_words_count }
    requires paths_bound { paths ≤ 2 ^ 62 }
    ensures { answer_of result ≡ fault_on_of paths words.now fault.0 }
{
    let number = fault.0;
    check_words(words, paths)?;
    if number < 1 {
        return Err(Refusal::NoSuchNumber);
    }
    if 2 * paths < number {
        return Err(Refusal::NoSuchNumber);
    }
    let path = path_of(FaultNo(number));
    let edge = edge_of(FaultNo(number));
    if held(words, edge, path) {
        Ok(true)
    } else {
        Ok(false)
    }
}
