// The public calls that only read, each with its answer as numbers.
use case_script::answers::{Answer, answered_one, four, one, refused_by, two};
use case_script::cells;
use model::Refusal;
use path_faults::{Edge, FaultNo, PathNo};
use store::StoreTotals;

// The survey: the numbers of inputs, gates and outputs, and the total.
pub(crate) fn survey(netlist: &[u8]) -> Answer {
    match netlist::survey(netlist) {
        Err(why) => refused_by(why),
        Ok(survey) => four(
            survey.inputs as u64,
            survey.gates as u64,
            survey.outputs as u64,
            survey.total,
        ),
    }
}

// The survey: its counts of 512 nets, asked for as a memory is. Those of a refused netlist are zeros.
pub(crate) fn counts(netlist: &[u8], what: &[u8]) -> Answer {
    match netlist::survey(netlist) {
        Err(_) => cells::ask(what, &[0u64; 512]),
        Ok(survey) => cells::ask(what, &survey.counts),
    }
}

// Totals: rising faults, falling faults.
pub(crate) fn totals_answer(answer: Result<StoreTotals, Refusal>) -> Answer {
    match answer {
        Ok(StoreTotals { rising, falling }) => two(rising, falling),
        Err(why) => refused_by(why),
    }
}

// The totals of a store.
pub(crate) fn totals(netlist: &[u8], store: &[u64]) -> Answer {
    let answer = store::totals(netlist, store);
    totals_answer(answer)
}

// Whether a fault is held: 1 or 0.
pub(crate) fn held_answer(answer: Result<bool, Refusal>) -> Answer {
    match answer {
        Ok(true) => one(1),
        Ok(false) => one(0),
        Err(why) => refused_by(why),
    }
}

// Whether a fault is in the store.
pub(crate) fn holds(netlist: &[u8], store: &[u64], fault: u64) -> Answer {
    let answer = store::fault_in_store(netlist, store, FaultNo(fault));
    held_answer(answer)
}

// Path to number.
pub(crate) fn number(netlist: &[u8], path: &[u16]) -> Answer {
    let answer = path_to_number::path_to_number(netlist, path);
    answered_one(answer.map(|number| number.0))
}

// The fault of a path and an edge.
fn fault_of(path: u64, edge: Edge) -> Answer {
    let answer = path_faults::fault_of(PathNo(path), edge);
    answered_one(answer.map(|fault| fault.0))
}

// The rising fault of a path.
pub(crate) fn rising(path: u64) -> Answer {
    fault_of(path, Edge::Rising)
}

// The falling fault of a path.
pub(crate) fn falling(path: u64) -> Answer {
    fault_of(path, Edge::Falling)
}

// The path of a fault, and 1 if the fault is rising, 0 if it is falling.
pub(crate) fn fault(number: u64) -> Answer {
    let path = path_faults::path_of(FaultNo(number));
    let edge = path_faults::edge_of(FaultNo(number));
    match edge {
        Edge::Rising => two(path.0, 1),
        Edge::Falling => two(path.0, 0),
    }
}
