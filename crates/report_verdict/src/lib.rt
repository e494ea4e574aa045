// The verdict of an audit as a line of text: the first line that `audit_report` prints.
#![tactic(auto)]

ghost use Rattle.std.specs.Prelude.{◌≡◌};
ghost use Rattle.model.specs.Refusals.{refusal_number_of};
ghost use Rattle.text_line.specs.Lines.{text_of};
ghost use Rattle.report_verdict.specs.Verdict.{verdict_text, of_record, class_text};
ghost use Rattle.model.specs.Returned.{answer_of};

use model::{ROBUST, Refusal};
use model_refusals::refusal_number;
use text_line::{Line, empty_line, with_refusal, with_text};

// `accepted`, or `refused` and document 01's number.
pub fn verdict_line(answer: Result<(), Refusal>) -> Line
    ensures { text_of result ≡ verdict_text (answer_of answer) }
{
    match answer {
        Ok(()) => with_text(empty_line(), b"accepted"),
        Err(why) => with_refusal(empty_line(), why),
    }
}

// `judged in class 1 (non-robust)` or `judged in class 2 (robust)`, for a class that the audit did not refuse.
pub fn class_line(class: u32) -> Line
    ensures { text_of result ≡ class_text class }
{
    if class == ROBUST {
        return with_text(empty_line(), b"judged in class 2 (robust)");
    }
    with_text(empty_line(), b"judged in class 1 (non-robust)")
}

// Whether a refusal is that of one test record of a file, which then has a place.
pub fn is_of_record(why: Refusal) -> bool
    ensures { result ≡ of_record (refusal_number_of why) }
{
    let number = refusal_number(why);
    if number == refusal_number(Refusal::RecordMark) {
        return true;
    }
    if number == refusal_number(Refusal::SpareBit) {
        return true;
    }
    if number == refusal_number(Refusal::UnchangedPair) {
        return true;
    }
    if number == refusal_number(Refusal::WorkingRuns) {
        return true;
    }
    number == refusal_number(Refusal::StoreRuns)
}
