// The words of the lines on a refused report: each puts its text at the end of a line, promised by an equation.
#![tactic(auto)]

ghost use Rattle.std.specs.Prelude.{◌≡◌};
ghost use Rattle.path_faults.specs.Answers.{model_edge};
ghost use Rattle.text_line.specs.Lines.{text_of, on_line};
ghost use Rattle.report_claim_words.specs.ClaimWords.{edge_word, kind_text, field_name, paths_text, plural_text};

use path_faults::Edge;
use text_line::{Line, with_number, with_text};

// What is wrong with numbers of paths.
#[derive(Clone, Copy)]
pub enum Kind {
    // Claimed and not detected.
    FalseClaim,
    // Claimed as detected robustly, and detected only non-robustly.
    NotRobust,
    // Detected and not claimed.
    Missed,
}

// A field of a report that is no number of faults.
#[derive(Drop)]
pub enum Field {
    Tests,
    Paths,
    RisingRuns,
    FallingRuns,
}

// The line with an edge at its end.
pub fn with_edge(line: Line, edge: Edge) -> Line
    ensures { text_of result ≡ on_line (text_of line) (edge_word (model_edge edge)) }
{
    match edge {
        Edge::Rising => with_text(line, b"rising"),
        Edge::Falling => with_text(line, b"falling"),
    }
}

// The line with what is wrong at its end.
pub fn with_kind(line: Line, kind: Kind) -> Line
    ensures { text_of result ≡ on_line (text_of line) (kind_text kind) }
{
    match kind {
        Kind::FalseClaim => with_text(line, b"false claim"),
        Kind::NotRobust => with_text(line, b"detected, not robustly"),
        Kind::Missed => with_text(line, b"missed"),
    }
}

// The line with what is wrong at its end, for a number of such lines.
pub fn with_plural(line: Line, kind: Kind, count: u64) -> Line
    ensures { text_of result ≡ on_line (text_of line) (plural_text kind count) }
{
    match kind {
        Kind::Missed => with_text(line, b"missed"),
        Kind::NotRobust => with_text(line, b"detected, not robustly"),
        Kind::FalseClaim => {
            if count == 1 {
                return with_text(line, b"false claim");
            }
            with_text(line, b"false claims")
        }
    }
}

// The line with the name of a field at its end.
pub fn with_field(line: Line, field: Field) -> Line
    ensures { text_of result ≡ on_line (text_of line) (field_name field) }
{
    match field {
        Field::Tests => with_text(line, b"tests"),
        Field::Paths => with_text(line, b"paths"),
        Field::RisingRuns => with_text(line, b"rising runs"),
        Field::FallingRuns => with_text(line, b"falling runs"),
    }
}

// The line with one path, or with the first and the last of several, at its end.
pub fn with_paths(line: Line, low: u64, high: u64) -> Line
    ensures { text_of result ≡ on_line (text_of line) (paths_text low high) }
{
    if low == high {
        return with_number(with_text(line, b"path "), low);
    }
    let first = with_number(with_text(line, b"paths "), low);
    with_number(with_text(first, b" to "), high)
}
