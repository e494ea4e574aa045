// Sound words asked without another check, for our own crates: a caller proves what a function requires.
ghost use Rattle.std.specs.Prelude.{◌≡◌, length};
ghost use Rattle.model.specs.Runs.{in_runs};
ghost use Rattle.tree_words.specs.TreeLayout.{tree_runs};
ghost use Rattle.tree_words.specs.Ways.{way_to};
ghost use Rattle.tree_words.specs.Nodes.{SoundTree};

use tree_check::inner::space_start;
use tree_descent::inner::{Visit, descend};
use tree_words::inner::word;

// Whether sound words hold a number, and the nodes visited, those on the way to its leaf.
pub fn visit_root(words: &[u64], number: u64) -> Visit
    requires { SoundTree words.now }
    ensures { (result.held ≡ in_runs (tree_runs words.now) number) × (result.visited ≡ length (way_to words.now number)) }
{
    let levels = word(words, 0);
    if levels == 0 {
        return Visit {
            held: false,
            visited: 0,
        };
    }
    let root = word(words, 1);
    let free = word(words, 2);
    let start = space_start(root);
    descend(words, start, free, levels - 1, root, number)
}
