// The true report of a test file that was walked over.
ghost use Rattle.std.specs.Prelude.{◌≡◌};
ghost use Rattle.io.specs.Counts.{IsPrefixLen};
ghost use Rattle.audit_block.specs.RecordsTaken.{file_of};
ghost use Rattle.testfile_judged.specs.TrueReport.{Wrote, writer_after, length_in};
ghost use Rattle.model.specs.Returned.{answer_of};

use audit_block::inner::TakenRecords;
use model::Refusal;
use report::write_report;

// What the writer answers, and the length of the report, 0 where it is refused.
#[derive(Drop)]
pub struct Written {
    pub answer: Result<usize, Refusal>,
    pub length: usize,
}

// An answer with its length.
fn with_length(answer: Result<usize, Refusal>) -> Written
    ensures { (result.answer ≡ answer) × (result.length ≡ length_in (answer_of answer)) }
{
    match answer {
        Err(why) => Written {
            answer: Err(why),
            length: 0,
        },
        Ok(length) => Written {
            answer: Ok(length),
            length,
        },
    }
}

// Writes the report of the records that were taken, with the store as they left it; none after a refusal.
pub(crate) fn true_report(
    netlist: &[u8],
    records: TakenRecords,
    store: &[u64],
    truth: &mut [u8],
) -> Written
    ensures wrote { Wrote result (writer_after netlist.now (file_of records.answer store.now) truth.old)
        truth.old truth.new }
    ensures prefix_len { IsPrefixLen result.length truth.new }
{
    let answer = records.answer;
    match answer {
        Err(why) => with_length(Err(why)),
        Ok(()) => with_length(write_report(netlist, store, truth)),
    }
}
