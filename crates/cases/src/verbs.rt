// The calls by their verbs: each is handed memory of the lengths set.
use crate::buffers::netlist_buffer;
use crate::reading::ask_reading;
use crate::storing::ask_storing;
use crate::viewing::ask_viewing;
use crate::writing::ask_writing;
use case_script::answers::{Answer, unknown};
use case_script::copies::load;
use case_script::pages::{
    Lengths, NETLIST_PLACE, NETLIST_START, PATH_PLACE, PATH_START, REPORT_PLACE, REPORT_START,
    STORE_PLACE, TESTS_PLACE, TESTS_START, WORK_PLACE, length_at, part,
};

// The call that a line names, on store and working memory of the lengths set.
fn ask_lent(
    line: &[u8],
    netlist: &[u8],
    lengths: Lengths,
    cells: &mut [u64],
    store: &mut [u64],
    work: &mut [u64],
) -> Answer {
    let read = ask_reading(
        line,
        netlist,
        store,
        part(cells, PATH_START, length_at(lengths, PATH_PLACE)),
    );
    if read.known {
        return read;
    }
    let written = ask_writing(line, netlist, lengths, store, cells);
    if written.known {
        return written;
    }
    let viewed = ask_viewing(line, netlist, lengths, store, cells);
    if viewed.known {
        return viewed;
    }
    ask_storing(
        line,
        netlist,
        part(cells, TESTS_START, length_at(lengths, TESTS_PLACE)),
        part(cells, REPORT_START, length_at(lengths, REPORT_PLACE)),
        store,
        work,
    )
}

// The call that a line names, handed memory of the lengths set.
pub(crate) fn ask_call(
    line: &[u8],
    lengths: Lengths,
    cells: &mut [u64],
    store: &mut [u64],
    work: &mut [u64],
) -> Answer {
    let mut netlist = netlist_buffer();
    let n = length_at(lengths, NETLIST_PLACE);
    let s = length_at(lengths, STORE_PLACE);
    let w = length_at(lengths, WORK_PLACE);
    if 16384 < n {
        return unknown();
    }
    if store.len() < s {
        return unknown();
    }
    if work.len() < w {
        return unknown();
    }
    load(part(cells, NETLIST_START, n), &mut netlist);
    ask_lent(
        line,
        &netlist[0..n],
        lengths,
        cells,
        &mut store[0..s],
        &mut work[0..w],
    )
}
