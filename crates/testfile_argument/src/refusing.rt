// What the programs say on standard error where a netlist, a class, a test file or one of its records is refused.
ghost use Rattle.std.specs.Prelude.{◌≡◌, ◌+◌, min};
ghost use Rattle.model.specs.Refusals.{refusal_number_of};
ghost use Rattle.text_line.specs.Lines.{text_of};
ghost use Rattle.testfile_argument.specs.Refusing.{last_place, refused_line_of};

use model::Refusal;
use program_sentences::{
    Line, STDERR_FILENO, empty_line, print_condition, print_line, with_number, with_refusal,
    with_text,
};
use report_verdict::is_of_record;

// The number of a refusal and its condition; for a test record also its place, after so many that were taken. Nothing is returned, so there is nothing to
// promise: what is written is `refused_line` and the sentence.
pub fn print_refused(why: Refusal, taken: usize) {
    print_line(STDERR_FILENO, refused_line(why, taken));
    print_condition(STDERR_FILENO, why);
}

// The number of a refusal; for a test record also its place, after so many that were taken.
pub fn refused_line(why: Refusal, taken: usize) -> Line
    ensures { text_of result ≡ refused_line_of (refusal_number_of why) taken }
{
    if is_of_record(why) {
        let place = with_number(with_text(empty_line(), b"record "), place_after(taken));
        return with_refusal(with_text(place, b" "), why);
    }
    with_refusal(empty_line(), why)
}

// The place of the record after so many. No file has so many that there is none.
fn place_after(taken: usize) -> u64
    ensures { result ≡ min (taken + 1) last_place }
{
    if taken < usize::MAX {
        return (taken + 1) as u64;
    }
    u64::MAX
}
