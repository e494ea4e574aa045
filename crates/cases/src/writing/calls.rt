// The public calls that write something else than a store, each with its answer as numbers.
use bench_text::bench_to_netlist;
use case_script::answers::{Answer, answered, answered_one, refused_by, two, unknown};
use path_faults::PathNo;

// Number to path.
pub(crate) fn find(netlist: &[u8], number: u64, path: &mut [u16]) -> Answer {
    let answer = path_of_number::number_to_path(netlist, PathNo(number), path);
    answered(answer)
}

// The writer: the length of the record.
pub(crate) fn write(netlist: &[u8], store: &[u64], report: &mut [u8]) -> Answer {
    let answer = report::write_report(netlist, store, report);
    answered_one(answer.map(|length| length as u64))
}

// The converter from .bench text: the length of the netlist file.
pub(crate) fn bench(text: &[u8], netlist: &mut [u8]) -> Answer {
    let answer = bench_to_netlist(text, netlist);
    answered_one(
        answer
            .map(|length| length as u64)
            .map_err(|refusal| refusal.why),
    )
}

// The load call: the state afterwards, and the bytes written. State and inputs have 32 bits.
pub(crate) fn write_load(state: u64, inputs: u64, records: &mut [u8]) -> Answer {
    if 4294967295 < state {
        return unknown();
    }
    if 4294967295 < inputs {
        return unknown();
    }
    let first = (state % 4294967296) as u32;
    let answer = load::write_load(first, (inputs % 4294967296) as u32, records);
    match answer {
        Ok(written) => two(written.state as u64, written.length as u64),
        Err(why) => refused_by(why),
    }
}
