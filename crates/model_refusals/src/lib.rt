// The papers' number of each refusal: one table, in two functions.
#![tactic(auto)]

ghost use Rattle.std.specs.Prelude.{◌≡◌, T, leb};
ghost use Rattle.model.specs.Refusals.{refusal_number_of};

use model::Refusal;

// The papers' number of a refusal.
pub fn refusal_number(why: Refusal) -> u32
    ensures { result ≡ refusal_number_of why }
{
    match why {
        Refusal::StoreLength => 1,
        Refusal::WorkLength => 2,
        Refusal::PathBufferLength => 3,
        Refusal::ReportBufferLength => 4,
        Refusal::NetlistBufferLength => 4,
        Refusal::Header => 10,
        Refusal::HeaderRange => 11,
        Refusal::GateCut => 12,
        Refusal::GateKind => 13,
        Refusal::PinCount => 14,
        Refusal::PinNotLower => 15,
        Refusal::CountOverLimit => 17,
        Refusal::OutputCut => 18,
        Refusal::OutputNet => 19,
        Refusal::BytesLeftOver => 20,
        Refusal::TotalOverLimit => 21,
        Refusal::RecordLength => 30,
        Refusal::RecordMark => 31,
        Refusal::SpareBit => 32,
        Refusal::TestFileLength => 33,
        Refusal::RunCount => 40,
        Refusal::RunRange => 41,
        Refusal::WordPastRuns => 42,
        Refusal::WorkingRuns => 50,
        Refusal::StoreRuns => 51,
        Refusal::NoSuchNumber => 60,
        Refusal::NotAPath => 61,
        Refusal::ReportMark => 70,
        Refusal::ReportLength => 71,
        Refusal::ReportBytes => 72,
        _ => later_number(why),
    }
}

// The number of a refusal from 80 on; 0 for any other.
fn later_number(why: Refusal) -> u32
    ensures { T (leb 80 (refusal_number_of why)) → result ≡ refusal_number_of why }
{
    match why {
        Refusal::BenchLine => 80,
        Refusal::BenchName => 81,
        Refusal::BenchCount => 82,
        Refusal::UnknownClass => 83,
        Refusal::PathTooLong => 84,
        Refusal::UnchangedPair => 85,
        Refusal::TestsFull => 86,
        Refusal::TreeLength => 87,
        Refusal::TreeWords => 88,
        Refusal::ViewerPlaces => 89,
        Refusal::ForeignFault => 90,
        Refusal::TooManyInputs => 91,
        _ => 0,
    }
}
