// The calls of a viewer, by their verbs: his places come out of cells, the second store lies in them.
use crate::buffers::path_buffer;
use crate::names::{HOLDS, RUNS, TOTALS, VIEWER};
use crate::reading::calls::{held_answer, totals_answer};
use case_script::answers::{Answer, answered, unknown};
use case_script::copies::load;
use case_script::numbers::{Numbers, are, number_at, numbers_in};
use case_script::pages::{
    Lengths, PLACES_PLACE, PLACES_START, VIEW_PLACE, VIEW_START, end_of, length_at, part,
};
use case_script::words::{after_word, key_of};
use path_faults::FaultNo;
use viewer::{viewer_holds, viewer_runs, viewer_totals};

// The totals of a viewer's outputs.
fn totals(netlist: &[u8], store: &[u64], places: &[u16]) -> Answer {
    let answer = viewer_totals(netlist, store, places);
    totals_answer(answer)
}

// Whether a fault of a viewer's output is in the store.
fn holds(netlist: &[u8], store: &[u64], places: &[u16], fault: u64) -> Answer {
    let answer = viewer_holds(netlist, store, places, FaultNo(fault));
    held_answer(answer)
}

// The runs of a viewer's outputs, into a second store.
fn runs(netlist: &[u8], store: &[u64], places: &[u16], view: &mut [u64]) -> Answer {
    let answer = viewer_runs(netlist, store, places, view);
    answered(answer)
}

// `totals`, `holds` with a fault, and `runs`.
fn ask_viewer(
    key: u64,
    numbers: Numbers,
    netlist: &[u8],
    store: &[u64],
    places: &[u16],
    view: &mut [u64],
) -> Answer {
    if key == HOLDS {
        if are(numbers, 1) {
            return holds(netlist, store, places, number_at(numbers, 0));
        }
        return unknown();
    }
    if !are(numbers, 0) {
        return unknown();
    }
    match key {
        TOTALS => totals(netlist, store, places),
        RUNS => runs(netlist, store, places, view),
        _ => unknown(),
    }
}

// A call of a viewer, on the cells of the second store.
fn ask_view(
    call: &[u8],
    netlist: &[u8],
    length: usize,
    store: &[u64],
    places: &[u16],
    cells: &mut [u64],
) -> Answer {
    let end = end_of(VIEW_START, length);
    if cells.len() < end {
        return unknown();
    }
    ask_viewer(
        key_of(call),
        numbers_in(after_word(call)),
        netlist,
        store,
        places,
        &mut cells[VIEW_START..end],
    )
}

// `viewer` and a call, with the places in cells.
pub fn ask_viewing(
    line: &[u8],
    netlist: &[u8],
    lengths: Lengths,
    store: &[u64],
    cells: &mut [u64],
) -> Answer {
    let mut places = path_buffer();
    let count = length_at(lengths, PLACES_PLACE);
    let length = length_at(lengths, VIEW_PLACE);
    if 1024 < count {
        return unknown();
    }
    if key_of(line) == VIEWER {
        load(part(cells, PLACES_START, count), &mut places);
        return ask_view(
            after_word(line),
            netlist,
            length,
            store,
            &places[0..count],
            cells,
        );
    }
    unknown()
}
