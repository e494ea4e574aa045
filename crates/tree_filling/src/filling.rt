// Trees filled once the netlist is read.
ghost use Rattle.std.specs.Prelude.{◌≡◌, ◌/◌, ◌^◌, ◌≤◌, length};
ghost use Rattle.model.specs.Base.{value};
ghost use Rattle.model.specs.Store.{store_words_count};
ghost use Rattle.run_lists.specs.RunLists.{runs_in_words};
ghost use Rattle.tree_words.specs.TreeLayout.{tree_words_count};
ghost use Rattle.tree_words.specs.Calls.{Holding};
ghost use Rattle.tree_filling.specs.TreesOfStore.{FilledBy, fill_on, Fillable};

use model::Refusal;
use path_faults::Edge;
use store_words::inner::check_words;
use store_words::inner::parts::edge_runs;
use tree::tree_empty;
use tree_change::inner::insert_run;

// Empties a tree and inserts the runs in some words, two for each, one after the other. They are known to be apart, so no step is checked again.
fn fill(runs: &[u64], words: &mut [u64])
    requires { Fillable runs.now words.old }
    ensures { Holding (value (runs_in_words runs.now 0 (length runs.now / 2))) words.old words.new }
{
    // The tree has its words, so that emptying it is never refused.
    let _ = tree_empty(words);
    let count = runs.len() / 2;
    for i in 0..count {
        insert_run(words, runs[2 * i], runs[2 * i + 1]);
    }
}

// Fills both trees from a store's words, for path numbers 1 to `paths`.
pub(crate) fn fill_both(
    store: &[u64],
    paths: u64,
    rising: &mut [u64],
    falling: &mut [u64],
) -> Result<u64, Refusal>
    requires { (length store.now ≡ store_words_count) × (paths ≤ 2 ^ 62) × (tree_words_count ≤ length rising.old) × (tree_words_count ≤ length falling.old) }
    ensures { FilledBy (fill_on paths store.now) result store.now rising.old rising.new
        falling.old falling.new }
{
    check_words(store, paths)?;
    let up = edge_runs(store, Edge::Rising);
    fill(up, rising);
    let down = edge_runs(store, Edge::Falling);
    fill(down, falling);
    Ok(paths)
}
