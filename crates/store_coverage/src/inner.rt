// The place Work once the runs of both edges are made, with 86 before it, and the faults that it finds new. Each caller proves what a function requires.
pub mod edges;

ghost use Rattle.std.specs.Prelude.{◌≡◌, List, ℕ, length};
ghost use Rattle.model.specs.Base.{Answer};
ghost use Rattle.model.specs.Netlist.{Netlist};
ghost use Rattle.model.specs.Detect.{Test};
ghost use Rattle.model.specs.Store.{store_words_count};
ghost use Rattle.model.specs.Calls.{Tested};
ghost use Rattle.store_coverage.specs.Stage.{BothMade, SomeBothMade, refused_after, work_stage, StageIs};
ghost use Rattle.store_coverage.specs.TestCall.{TestedIs, Counting, SomeCounting};
ghost use Rattle.model.specs.Returned.{answer_of};

use crate::TestCounts;
use crate::inner::edges::{FALLING_UNION, Over, RISING_UNION};
use model::Refusal;
use path_faults::Edge;
use store_words::inner::parts::tests_left;
use store_words::inner::{StoreTotals, totals_of};
use store_writing::inner::{Change, count_test, write_runs};

// Why a test is refused whose runs do not fit: that no more tests are counted comes first.
fn refuse(why: Refusal, store: &[u64]) -> Result<(), Refusal>
    requires { length store.now ≡ store_words_count }
    ensures { answer_of result ≡ refused_after store.now why }
{
    if tests_left(store) {
        return Err(why);
    }
    Err(Refusal::TestsFull)
}

// Writes the runs made of both edges where one more test can be counted and both fit, and counts it; or says why the store may not hold them. The cases of the
// answer come first and the tests within each, so that the compiled code goes from the edges' answers straight to the case and builds no joined answer.
pub fn write_both(
    answer: Result<(Change, Change), Over>,
    store: &mut [u64],
    work: &[u64],
) -> Result<(), Refusal>
    requires { SomeBothMade answer store.old work.now }
    ensures { (N : Netlist) (t : Test) (found : List ℕ) → BothMade N t store.old found work.now answer
        → StageIs (work_stage N t store.old) store.old store.new found work.now result }
{
    match answer {
        Ok((rising, falling)) => {
            if !tests_left(store) {
                return Err(Refusal::TestsFull);
            }
            write_runs(work, RISING_UNION, rising, store, Edge::Rising);
            write_runs(work, FALLING_UNION, falling, store, Edge::Falling);
            count_test(store);
            Ok(())
        }
        Err(Over::Work) => refuse(Refusal::WorkingRuns, store),
        Err(Over::Store) => refuse(Refusal::StoreRuns, store),
    }
}

// The faults that a stage finds new to a store and those then held, from the store's totals before it and what it answered.
pub fn count_answer(
    before: StoreTotals,
    answer: Result<(), Refusal>,
    store: &[u64],
) -> Result<TestCounts, Refusal>
    requires { SomeCounting before answer store.now }
    ensures { (N : Netlist) (t : Test) (x : Answer Tested) (held old new : List ℕ)
        → Counting N t x held store.now old new before answer → TestedIs x held store.now old new result }
{
    answer?;
    let after = totals_of(store);
    Ok(TestCounts {
        new_rising: after.rising - before.rising,
        new_falling: after.falling - before.falling,
        held_rising: after.rising,
        held_falling: after.falling,
    })
}
