// The lines of answers. A function puts one line from a place on, and returns the place after it.
ghost use Rattle.std.specs.Prelude.{◌≡◌, ◌+◌, ◌*◌, ◌^◌, ◌≤◌, length};
ghost use Rattle.model.specs.Read.{within};
ghost use Rattle.text_buffer.specs.Written.{Written};
ghost use Rattle.tree_words.specs.Nodes.{SoundTree};
ghost use Rattle.tree_filling.specs.TreesOfStore.{TreesReady};
ghost use Rattle.ask_text.specs.Questions.{fault_asked, asked_line, wrong_line, answer_line};
ghost use Rattle.ask_text.specs.Pieces.{answer_bytes, FaultVisited};

use crate::inner::Stated;
use model::Refusal;
use model_refusals::refusal_number;
use path_faults::{Edge, FaultNo, edge_of, path_of};
use text_buffer::inner::put_numbered;
use text_line::inner::put_number;
use tree::inner::visit_root;
use tree_descent::inner::Visit;

// Whether a number is that of a fault.
fn is_fault(paths: u64, fault: u64) -> bool
    requires { paths ≤ 2 ^ 62 }
    ensures { result ≡ within 1 (2 * paths) fault }
{
    if fault < 1 {
        return false;
    }
    fault <= 2 * paths
}

// Whether the tree of a fault's edge holds its path number, and the nodes visited.
fn visit_fault(rising: &[u64], falling: &[u64], fault: u64) -> Visit
    requires { SoundTree rising.now × SoundTree falling.now }
    ensures { FaultVisited result rising.now falling.now fault }
{
    let path = path_of(FaultNo(fault));
    let edge = edge_of(FaultNo(fault));
    match edge {
        Edge::Rising => visit_root(rising, path.0),
        Edge::Falling => visit_root(falling, path.0),
    }
}

// The answer to a number.
fn put_fault(
    out: &mut [u8],
    at: usize,
    paths: u64,
    rising: &[u64],
    falling: &[u64],
    fault: u64,
) -> usize
    requires { TreesReady paths rising.now falling.now × (at + answer_bytes ≤ length out.old) }
    ensures { Written out.old out.new at
        (asked_line fault (fault_asked paths rising.now falling.now fault)) result × (result ≤ at + answer_bytes) }
{
    let next = put_number(out, at, fault);
    if !is_fault(paths, fault) {
        let number = refusal_number(Refusal::NoSuchNumber) as u64;
        return put_numbered(out, next, b" refused ", number, b"");
    }
    let visit = visit_fault(rising, falling, fault);
    let visited = visit.visited as u64;
    if visit.held {
        return put_numbered(out, next, b" held, nodes visited: ", visited, b"");
    }
    put_numbered(out, next, b" not held, nodes visited: ", visited, b"")
}

// The answer to a line that states no number.
fn put_wrong(out: &mut [u8], at: usize, place: u64) -> usize
    requires { at + answer_bytes ≤ length out.old }
    ensures { Written out.old out.new at (wrong_line place) result × (result ≤ at + answer_bytes) }
{
    put_numbered(out, at, b"line ", place, b": no fault number")
}

// The answer to a line.
pub(crate) fn put_answer(
    out: &mut [u8],
    at: usize,
    paths: u64,
    rising: &[u64],
    falling: &[u64],
    place: u64,
    line: Stated,
) -> usize
    requires { TreesReady paths rising.now falling.now × (at + answer_bytes ≤ length out.old) }
    ensures { Written out.old out.new at
        (answer_line (fault_asked paths rising.now falling.now) place line) result × (result ≤ at + answer_bytes) }
{
    match line {
        Stated::Nothing => put_wrong(out, at, place),
        Stated::Number(n) => put_fault(out, at, paths, rising, falling, n),
        Stated::Wrong => put_wrong(out, at, place),
    }
}
