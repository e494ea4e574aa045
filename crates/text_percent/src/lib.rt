// The share of the paths that a number is, as text, with one decimal: each puts its text at the end of a line, promised by an equation.
#![tactic(auto)]

pub mod inner;

ghost use Rattle.std.specs.Prelude.{◌≡◌, ◌&&◌, ltb, leb};
ghost use Rattle.text_line.specs.Lines.{text_of, on_line};
ghost use Rattle.text_percent.specs.Shares.{count_text, claimed_share, true_share};

use crate::inner::with_percent;
use text_line::{Line, with_number, with_text};

// The line with the share of the paths that a number claims at its end.
pub fn with_claimed_share(line: Line, claimed: u64, paths: u64) -> Line
    ensures { text_of result ≡ on_line (text_of line) (claimed_share claimed paths) }
{
    if is_part(claimed, paths) {
        let share = with_percent(with_text(line, b" ("), claimed, paths);
        let total = with_count(with_text(share, b" of "), paths);
        return with_text(total, b")");
    }
    with_text(with_count(with_text(line, b" (of "), paths), b")")
}

// The line with the share of the paths that is true at its end.
pub fn with_true_share(line: Line, truth: u64, paths: u64) -> Line
    ensures { text_of result ≡ on_line (text_of line) (true_share truth paths) }
{
    if is_part(truth, paths) {
        return with_text(with_percent(with_text(line, b" ("), truth, paths), b")");
    }
    with_text(line, b"")
}

// The line with a number of paths at its end.
fn with_count(line: Line, paths: u64) -> Line
    ensures { text_of result ≡ on_line (text_of line) (count_text paths) }
{
    let number = with_number(line, paths);
    if paths == 1 {
        return with_text(number, b" path");
    }
    with_text(number, b" paths")
}

// Whether a number is a part of the paths.
fn is_part(part: u64, paths: u64) -> bool
    ensures { result ≡ (ltb 0 paths && leb part paths) }
{
    if paths == 0 {
        return false;
    }
    part <= paths
}
