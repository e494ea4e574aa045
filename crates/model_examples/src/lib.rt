// Document 01's table of starred examples (specs/Starred) and that every row holds (proofs/StarredHold); that the small examples of document 02,
// which are tables of `model`, hold (proofs/ExamplesHold). They stand apart from `model` because the check computes their rows, which takes longer
// than all laws of `model`.
#![tactic(auto)]

ghost use Rattle.std.specs.Prelude.{◌≡◌, length};
ghost use Rattle.model_examples.specs.Starred.{starred};

// How many rows the table has; a crate's theorems are checked only where it has a function.
pub fn row_count() -> usize
    ensures { result ≡ length starred }
{
    13
}
