// The records of a block, one after the other, with the faults counted that each adds. Each caller proves what a function requires.
ghost use Rattle.std.specs.Prelude.{◌≡◌, List, ℕ, ◌<◌, length};
ghost use Rattle.model.specs.Netlist.{Netlist};
ghost use Rattle.model.specs.Detect.{Test};
ghost use Rattle.store_coverage.specs.Stage.{MemoryReady, work_stage};
ghost use Rattle.store_coverage.specs.TestCall.{TestedIs};
ghost use Rattle.block_counting.specs.Counts.{keeps_both_of, counts_kept, BothCounted, SomeBothCounted, totals_after_of, words_of, with_answer, BlockCounted};
ghost use Rattle.block_stage.specs.BlockStage.{BlockAt, BlockReady, MemoryKept};

use block_activity::inner::Batch;
use block_activity::inner::layout::{
    DOWN_LENGTHS_AT, MARKS_SIZE, OFFSET_TABLE_SIZE, UP_LENGTHS_AT,
};
use block_intervals::layout::SPANS_SIZE;
use block_stage::inner::listed::{cover_listed, edges_at};
use block_stage::inner::spans::{begin_spans, renew_sections};
use block_words::inner::layout::{GATE_TABLE_SIZE, LIST_SIZE};
use model::Refusal;
use model_refusals::refusal_number;
use store_coverage::TestCounts;
use store_coverage::inner::edges::Over;
use store_coverage::inner::{count_answer, write_both};
use store_words::inner::{StoreTotals, totals_of};
use store_writing::inner::Change;

// What a record adds to each edge, or the number of its refusal, which is else 0.
#[derive(Drop)]
pub struct AnswerWords {
    pub rising: u64,
    pub falling: u64,
    pub refusal: u64,
}

// Whether both edges keep the runs that the store holds.
fn keeps_both(answer: Result<(Change, Change), Over>) -> bool
    ensures { result ≡ keeps_both_of answer }
{
    match answer {
        Ok((Change::Kept, Change::Kept)) => true,
        _ => false,
    }
}

// What a stage that keeps the store's runs answers: nothing is new.
fn count_kept(before: StoreTotals, answer: Result<(), Refusal>) -> Result<TestCounts, Refusal>
    ensures { result ≡ counts_kept before answer }
{
    answer?;
    Ok(TestCounts {
        new_rising: 0,
        new_falling: 0,
        held_rising: before.rising,
        held_falling: before.falling,
    })
}

// Writes the runs made of both edges, and counts the faults that are new and those then held. A store that keeps its runs is not counted again.
fn count_both(
    before: StoreTotals,
    answer: Result<(Change, Change), Over>,
    store: &mut [u64],
    work: &[u64],
) -> Result<TestCounts, Refusal>
    requires { SomeBothCounted before answer store.old work.now }
    ensures { (N : Netlist) (t : Test) (found : List ℕ) → BothCounted N t store.old found work.now answer before
        → TestedIs (work_stage N t store.old) store.old store.new found work.now result }
{
    let stage = write_both(answer, store, work);
    if keeps_both(answer) {
        return count_kept(before, stage);
    }
    count_answer(before, stage, store)
}

// The faults that a store holds after a record.
fn totals_after(before: StoreTotals, answer: Result<TestCounts, Refusal>) -> StoreTotals
    ensures { result ≡ totals_after_of before answer }
{
    match answer {
        Ok(
            TestCounts {
                held_rising,
                held_falling,
                ..
            },
        ) => StoreTotals {
            rising: held_rising,
            falling: held_falling,
        },
        Err(_) => before,
    }
}

// An answer as words.
fn answer_words(answer: Result<TestCounts, Refusal>) -> AnswerWords
    ensures { result ≡ words_of answer }
{
    match answer {
        Ok(
            TestCounts {
                new_rising,
                new_falling,
                ..
            },
        ) => AnswerWords {
            rising: new_rising,
            falling: new_falling,
            refusal: 0,
        },
        Err(why) => AnswerWords {
            rising: 0,
            falling: 0,
            refusal: refusal_number(why) as u64,
        },
    }
}

// Puts the words of record t where the block's answers are.
fn put_answer(answers: &mut [u64; 192], t: usize, words: AnswerWords)
    requires { (t < 64) × (length answers.old ≡ 192) }
    ensures { answers.new ≡ with_answer answers.old t words }
{
    answers[t] = words.rising;
    answers[64 + t] = words.falling;
    answers[128 + t] = words.refusal;
}

// The place Work with the records of a block in order, each on the store that the one before it left: the answers of all. A refused one leaves the store
// as it was. The store is counted once, and again after a record that changed it.
pub fn count_block(
    table: &[u16; GATE_TABLE_SIZE],
    offsets: &[u64; OFFSET_TABLE_SIZE],
    rising_lists: &[u32],
    falling_lists: &[u32],
    marks: &[u64; MARKS_SIZE],
    batch: Batch,
    store: &mut [u64],
    work: &mut [u64],
) -> [u64; 192]
    requires { BlockReady table.now offsets.now rising_lists.now falling_lists.now marks.now batch store.old work.old }
    ensures { MemoryKept store.new work.old work.new
        × ((N : Netlist) (tests : ℕ → Test)
        → BlockAt N tests table.now offsets.now rising_lists.now falling_lists.now marks.now batch
        → MemoryReady N store.old work.old
        → BlockCounted N tests batch.records store.old store.new result) }
{
    let inputs = batch.inputs;
    let outputs = batch.outputs;
    let records = batch.records;
    let mut spans = [0u64; SPANS_SIZE];
    begin_spans(offsets, inputs, outputs, store, &mut spans);
    let mut answers = [0u64; 192];
    let mut held = totals_of(store);
    for t in 0..records {
        let at = LIST_SIZE * t;
        let up = &rising_lists[at..at + marks[UP_LENGTHS_AT + t] as usize];
        let down = &falling_lists[at..at + marks[DOWN_LENGTHS_AT + t] as usize];
        let edges = edges_at(marks, t, inputs, outputs);
        let made = cover_listed(table, offsets, up, down, edges, store, &mut spans, work);
        let answer = count_both(held, made, store, work);
        held = totals_after(held, answer);
        put_answer(&mut answers, t, answer_words(answer));
        renew_sections(offsets, outputs, made, store, &mut spans);
    }
    answers
}
