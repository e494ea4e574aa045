// Reports of the tested faults: the writer; inner: a report compared with the one that the writer gives.
#![tactic(auto)]

pub mod inner;
mod writing;

ghost use Rattle.report.specs.Answers.{WriteTrue};

use crate::writing::put_report;
use model::{REPORT_BYTES, Refusal, STORE_WORDS};
use netlist::survey;
use store_words::inner::check_words;
use store_words::inner::parts::tests_taken;

// Writes the report of a store, with the number of tests that it counts. A refused call leaves the bytes as they were.
pub fn write_report(netlist: &[u8], store: &[u64], report: &mut [u8]) -> Result<usize, Refusal>
    ensures { WriteTrue result netlist.now store.now report.old report.new }
{
    if store.len() != STORE_WORDS {
        return Err(Refusal::StoreLength);
    }
    if report.len() < REPORT_BYTES {
        return Err(Refusal::ReportBufferLength);
    }
    let legal = survey(netlist)?;
    check_words(store, legal.total)?;
    let length = put_report(report, tests_taken(store), legal.total, store);
    Ok(length)
}
