// One edge of a store with the runs that a test detects, and the answers of both edges, for our own crates. Each caller proves what a function requires.
ghost use Rattle.std.specs.Prelude.{◌≡◌, List, ℕ, ◌≤◌};
ghost use Rattle.model.specs.Netlist.{path_total};
ghost use Rattle.run_lists.specs.RunLists.{Sound};
ghost use Rattle.detection.specs.Cases.{Case};
ghost use Rattle.detection.specs.Walks.{Detects};
ghost use Rattle.store_coverage.specs.Covers.{held_runs, JoinReady, Covers};
ghost use Rattle.store_coverage.specs.Both.{joined};
ghost use Rattle.std.specs.Prelude.{Some};

use model::MAX_RUNS;
use run_lists::inner::inside;
use run_union::inner::merging::{first_apart, first_joined, union};
use store_writing::inner::Change;

// The run places in the words where the union of each edge is made.
pub const RISING_UNION: usize = 2048;

pub const FALLING_UNION: usize = 3072;

// Which memory does not hold the runs: the working memory those that a test detects, or the store those of an edge after it.
#[derive(Clone, Copy)]
pub enum Over {
    Work,
    Store,
}

// Joins detected runs of which some are new. Only those that an edge holds between the first and the last of them are united with them, at run `target`.
fn join_new(found: usize, held: &[u64], words: &mut [u64], target: usize) -> Result<Change, Over>
    requires join_ready { JoinReady (Some found) held.now words.old target }
    requires le_found { 1 ≤ found }
    ensures { (K : Case) (ws : List ℕ) → Detects K ws words.old (Some found)
        → Sound (path_total K.netlist) (held_runs held.now) → Covers K (held_runs held.now) ws words.new target result }
{
    let count = held.len() / 2;
    let end = MAX_RUNS + found;
    let from = first_joined(held, count, words[2 * MAX_RUNS]);
    let to = first_apart(held, from, count, words[2 * end - 1]);
    match union(held, from, to, words, MAX_RUNS, end, target, MAX_RUNS) {
        Some(n) => {
            if MAX_RUNS < from + n + (count - to) {
                return Err(Over::Store);
            }
            Ok(Change::Made(from, to, n))
        }
        None => Err(Over::Store),
    }
}

// Joins the detected runs of the second quarter of the words to the runs that an edge holds. Where something is new a union is made at run `target`.
pub fn join_edge(
    detected: Option<usize>,
    held: &[u64],
    words: &mut [u64],
    target: usize,
) -> Result<Change, Over>
    requires { JoinReady detected held.now words.old target }
    ensures { (K : Case) (ws : List ℕ) → Detects K ws words.old detected
        → Sound (path_total K.netlist) (held_runs held.now) → Covers K (held_runs held.now) ws words.new target result }
{
    match detected {
        None => Err(Over::Work),
        Some(found) => {
            if found == 0 {
                return Ok(Change::Kept);
            }
            let count = held.len() / 2;
            let end = MAX_RUNS + found;
            if inside(held, 0, count, words, MAX_RUNS, end) {
                return Ok(Change::Kept);
            }
            join_new(found, held, words, target)
        }
    }
}

// What a test makes of both edges, the rising one first: the answers of two edges as one.
pub fn join_answers(
    rising: Result<Change, Over>,
    falling: Result<Change, Over>,
) -> Result<(Change, Change), Over>
    ensures { result ≡ joined rising falling }
{
    match rising {
        Ok(r) => {
            let f = falling?;
            Ok((r, f))
        }
        Err(Over::Work) => Err(Over::Work),
        Err(Over::Store) => match falling {
            Ok(f) => Err(Over::Store),
            Err(Over::Work) => Err(Over::Work), // before the rising edge's 51
            Err(Over::Store) => Err(Over::Store),
        },
    }
}
