// What is said of a refused report, a line each: a field that is false, a run that is out of order, numbers that are claimed and not detected or
// detected and not claimed, and how many lines are left out. Each line's text is promised by an equation.
#![tactic(auto)]

ghost use Rattle.std.specs.Prelude.{◌≡◌};
ghost use Rattle.text_line.specs.Lines.{text_of};
ghost use Rattle.report_claim_text.specs.Claims.{claim_text, field_text, faults_text, order_text, more_text, room_beside_of, shown_of};

use path_faults::Edge;
use report_claim_words::{Field, Kind, with_edge, with_field, with_kind, with_paths, with_plural};
use text_line::{Line, empty_line, with_number, with_text};
use text_percent::{with_claimed_share, with_true_share};

// `false claim, rising, paths 2 to 3`, or `missed, falling, path 7` for one number.
pub fn claim_line(kind: Kind, edge: Edge, low: u64, high: u64) -> Line
    ensures { text_of result ≡ claim_text kind edge low high }
{
    let kinds = with_text(with_kind(empty_line(), kind), b", ");
    let edges = with_text(with_edge(kinds, edge), b", ");
    with_paths(edges, low, high)
}

// `tests: claimed 4, true 3`.
pub fn field_line(field: Field, claimed: u64, truth: u64) -> Line
    ensures { text_of result ≡ field_text field claimed truth }
{
    let name = with_text(with_field(empty_line(), field), b": claimed ");
    with_number(with_text(with_number(name, claimed), b", true "), truth)
}

// `rising faults: claimed 2 (66.6 % of 3 paths), true 1 (33.3 %)`.
pub fn faults_line(edge: Edge, claimed: u64, truth: u64, paths: u64) -> Line
    ensures { text_of result ≡ faults_text edge claimed truth paths }
{
    let name = with_text(with_edge(empty_line(), edge), b" faults: claimed ");
    let first = with_claimed_share(with_number(name, claimed), claimed, paths);
    let second = with_number(with_text(first, b", true "), truth);
    with_true_share(second, truth, paths)
}

// `rising run 5 of the report (9 to 3) is out of order`. Runs are counted from 1 here.
pub fn order_line(edge: Edge, number: u64, low: u64, high: u64) -> Line
    ensures { text_of result ≡ order_text edge number low high }
{
    let name = with_text(with_edge(empty_line(), edge), b" run ");
    let place = with_text(with_number(name, number), b" of the report (");
    let ends = with_number(with_text(with_number(place, low), b" to "), high);
    with_text(ends, b") is out of order")
}

// `and 5 more false claims`, `and 5 more missed`.
pub fn more_line(kind: Kind, count: u64) -> Line
    ensures { text_of result ≡ more_text kind count }
{
    let number = with_number(with_text(empty_line(), b"and "), count);
    with_plural(with_text(number, b" more "), kind, count)
}

// How many of the lines of one kind are shown: all where all are asked for; else as many as 20 lines hold with those of the other kind, and ten at
// the least.
pub fn shown_lines(lines: u64, others: u64, all: bool) -> u64
    ensures { result ≡ shown_of lines others all }
{
    if all {
        return lines;
    }
    let room = room_beside(others);
    if lines < room {
        return lines;
    }
    room
}

// How many of 20 lines are left beside those of the other kind: ten at the least.
fn room_beside(others: u64) -> u64
    ensures { result ≡ room_beside_of others }
{
    if others < 10 {
        return 20 - others;
    }
    10
}
