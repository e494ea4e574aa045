// How many runs a store can come to have: at most as many as faults were tested, and at most as many as were not and one more. Document 02, ticket 11.
// What is claimed stands in specs/Bounds, of the definitions and of the values that the calls return.
#![tactic(auto)]

ghost use Rattle.std.specs.Prelude.{◌≡◌, leb};
ghost use Rattle.audit_run_bounds.specs.Bounds.{small_total};

use model::MAX_RUNS;

// The most paths of a netlist on which no test is refused with 51.
pub const SMALL_TOTAL: u64 = 2 * (MAX_RUNS as u64);

// Whether a netlist of so many paths can't fill a store; a crate's theorems are checked only where it has a function.
pub fn store_cannot_fill(paths: u64) -> bool
    ensures { result ≡ leb paths small_total }
{
    paths <= SMALL_TOTAL
}
