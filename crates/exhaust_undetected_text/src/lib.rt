// What is said of the faults that a store does not hold: their number, and each by its number, edge and path. Each line's text is promised by an equation.
#![tactic(auto)]

ghost use Rattle.std.specs.Prelude.{◌≡◌};
ghost use Rattle.text_line.specs.Lines.{text_of};
ghost use Rattle.exhaust_undetected_text.specs.UndetectedText.{count_text, fault_text};

use path_faults::{FaultNo, edge_of, path_of};
use report_claim_words::with_edge;
use text_line::{Line, empty_line, with_number, with_text};

// `undetected 3`.
pub fn count_line(count: u64) -> Line
    ensures { text_of result ≡ count_text count }
{
    with_number(with_text(empty_line(), b"undetected "), count)
}

// `fault 3: rising, path 2`.
pub fn fault_line(fault: FaultNo) -> Line
    ensures { text_of result ≡ fault_text fault.0 }
{
    let number = with_number(with_text(empty_line(), b"fault "), fault.0);
    let edge = with_edge(with_text(number, b": "), edge_of(fault));
    let path = path_of(fault);
    with_number(with_text(edge, b", path "), path.0)
}
