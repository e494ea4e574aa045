// The public calls that write a store, each with its answer as numbers.
use crate::reading::calls::totals_answer;
use case_script::answers::{Answer, answered, four, refused_by};
use single_call::apply_test;

// The test call in a class: new rising, new falling, held rising, held falling.
pub(crate) fn test(
    netlist: &[u8],
    test: &[u8],
    class: u32,
    store: &mut [u64],
    work: &mut [u64],
) -> Answer {
    let answer = apply_test(netlist, test, class, store, work);
    match answer {
        Err(why) => refused_by(why),
        Ok(counts) => four(
            counts.new_rising,
            counts.new_falling,
            counts.held_rising,
            counts.held_falling,
        ),
    }
}

// Emptying a store.
pub(crate) fn empty(store: &mut [u64]) -> Answer {
    let answer = store::empty(store);
    answered(answer)
}

// The audit in a class.
pub(crate) fn audit(
    netlist: &[u8],
    tests: &[u8],
    report: &[u8],
    class: u32,
    store: &mut [u64],
    work: &mut [u64],
) -> Answer {
    let answer = audit::audit(netlist, tests, report, class, store, work);
    answered(answer)
}

// All pairs of vectors in a class: rising faults, falling faults.
pub(crate) fn exhaust(netlist: &[u8], class: u32, store: &mut [u64], work: &mut [u64]) -> Answer {
    let answer = exhaust::exhaust(netlist, class, store, work);
    totals_answer(answer)
}
