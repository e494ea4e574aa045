// The condition of each refusal as a plain sentence, in the order of the cases: a function for each group, which hands a later case on to the next.
ghost use Rattle.std.specs.Prelude.{◌≡◌, T, leb, []};
ghost use Rattle.text_line.specs.Lines.{text_of, on_line};
ghost use denote.Enum.Declared.{tag_of};
ghost use Rattle.model.specs.contracts.Refusal.{the_type};
ghost use Rattle.program_sentences.specs.Conditions.{condition_text};

use crate::print_line;
use model::Refusal;
use text_line::{Line, empty_line, with_text};

// Writes the condition of a refusal as a sentence, with its line end. Nothing is returned, so there is nothing to promise: what is written is `condition_line`.
pub fn print_condition(fd: i32, why: Refusal) {
    print_line(fd, condition_line(why));
}

// A sentence alone on a line.
pub(crate) fn alone(sentence: &[u8]) -> Line
    ensures { text_of result ≡ on_line [] sentence.now }
{
    with_text(empty_line(), sentence)
}

// The condition of a refusal as a sentence: here those of lent memory, and of the header and the gates of a netlist.
pub fn condition_line(why: Refusal) -> Line
    ensures { text_of result ≡ condition_text why }
{
    match why {
        Refusal::StoreLength => alone(b"The store has not 4,099 words."),
        Refusal::WorkLength => alone(b"The working memory has under 8,192 words."),
        Refusal::PathBufferLength => alone(b"The path buffer has under 513 words."),
        Refusal::ReportBufferLength => alone(b"The report buffer has under 32,802 bytes."),
        Refusal::Header => alone(b"The netlist has under 8 bytes or does not begin with its mark."),
        Refusal::HeaderRange => alone(
            b"The netlist's number of inputs, gates or outputs is out of range.",
        ),
        Refusal::GateCut => alone(
            b"A gate of the netlist is cut off or does not begin with its mark.",
        ),
        Refusal::GateKind => alone(b"A gate of the netlist is of no known kind."),
        Refusal::PinCount => alone(
            b"A gate of the netlist has a number of pins that its kind does not allow.",
        ),
        Refusal::PinNotLower => alone(
            b"A pin of the netlist names a net that is not lower than its gate's.",
        ),
        Refusal::CountOverLimit => alone(b"A net of the netlist has over 2^62 paths."),
        _ => line_from_outputs(why),
    }
}

// From the outputs of a netlist on: these, its end, test records, the store.
fn line_from_outputs(why: Refusal) -> Line
    ensures { T (leb 11 (tag_of the_type why)) → text_of result ≡ condition_text why }
{
    match why {
        Refusal::OutputCut => alone(
            b"An output of the netlist is cut off or does not begin with its mark.",
        ),
        Refusal::OutputNet => alone(
            b"An output of the netlist names no net, or none higher than the output before.",
        ),
        Refusal::BytesLeftOver => alone(b"The netlist has bytes after its last output."),
        Refusal::TotalOverLimit => alone(b"The netlist has over 2^62 paths."),
        Refusal::RecordLength => alone(b"A test record has the wrong length."),
        Refusal::RecordMark => alone(b"A test record does not begin with its mark."),
        Refusal::SpareBit => alone(b"A test record has a spare bit set."),
        Refusal::TestFileLength => alone(
            b"The test file is no whole number of records, or has over 4,294,967,295 of them.",
        ),
        Refusal::RunCount => alone(
            b"The store states over 1,024 runs of an edge or over 4,294,967,295 tests.",
        ),
        Refusal::RunRange => alone(
            b"The store has a run out of range or out of order, or runs and no tests.",
        ),
        Refusal::WordPastRuns => alone(b"The store has a word past its last run that is not zero."),
        _ => line_from_work(why),
    }
}

// From the work on: this, questions, reports, the netlist's buffer, .bench text.
fn line_from_work(why: Refusal) -> Line
    ensures { T (leb 22 (tag_of the_type why)) → text_of result ≡ condition_text why }
{
    match why {
        Refusal::WorkingRuns => alone(b"A test makes over 1,024 working runs of an edge."),
        Refusal::StoreRuns => alone(
            b"With a test the store would have over 1,024 runs of an edge.",
        ),
        Refusal::NoSuchNumber => alone(b"The circuit has no path or fault of that number."),
        Refusal::NotAPath => alone(b"The words are not exactly a path."),
        Refusal::ReportMark => alone(
            b"The report has under 34 bytes or does not begin with its mark.",
        ),
        Refusal::ReportLength => alone(
            b"The report's length is not that of the runs that it states.",
        ),
        Refusal::ReportBytes => alone(b"The report is not the true report of these tests."),
        Refusal::NetlistBufferLength => alone(b"The netlist buffer has under 10,484 bytes."),
        Refusal::BenchLine => alone(
            b"A line is neither INPUT(NAME), OUTPUT(NAME), NAME = KIND(NAME, ...), a # comment nor blank.",
        ),
        Refusal::BenchName => alone(
            b"A name is not defined on an earlier line or is defined twice, or an output is twice named or never defined.",
        ),
        Refusal::BenchCount => alone(
            b"A number of pins, inputs (1 to 64), gates (to 511), both (to 512) or outputs (1 to 64) is out of range.",
        ),
        _ => line_from_class(why),
    }
}

// From the class on: this, long paths, pairs, the tests of a store, trees, viewers, the exhaustive block. Nothing for a condition before it.
fn line_from_class(why: Refusal) -> Line
    ensures { T (leb 33 (tag_of the_type why)) → text_of result ≡ condition_text why }
{
    match why {
        Refusal::UnknownClass => alone(b"The class of the tests is neither 1 nor 2."),
        Refusal::PathTooLong => alone(b"A path to an output has more than 63 gates."),
        Refusal::UnchangedPair => alone(b"The pair of a test record changes no input."),
        Refusal::TestsFull => alone(b"The store has 4,294,967,295 tests and counts no more."),
        Refusal::TreeLength => alone(b"The tree has under 32,768 words."),
        Refusal::TreeWords => alone(b"The words are no tree in the layout."),
        Refusal::ViewerPlaces => alone(
            b"The list of output places is empty, not strictly ascending or names no output.",
        ),
        Refusal::ForeignFault => alone(b"The fault is that of another output."),
        Refusal::TooManyInputs => alone(b"The netlist has more than 6 inputs."),
        _ => empty_line(),
    }
}
