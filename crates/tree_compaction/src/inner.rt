// The head of the words, and room for one insertion or deletion, for our own crates. Each caller proves what a function requires.
ghost use Rattle.std.specs.Prelude.{◌≡◌, ◌≤◌, length};
ghost use Rattle.tree_words.specs.Nodes.{SoundTree};
ghost use Rattle.tree_compaction.specs.Compaction.{put_head_of, other_start_of, RootReady, RootWritten, HasSpace};

use tree_check::inner::{space_end, space_start};
use tree_copy::inner::copy_at;
use tree_words::inner::{LOWER_START, UPPER_START, word};

// The most words that one insertion or deletion uses.
pub const STEP_WORDS: usize = 1100;

// Writes the head of the words: levels, root, free.
fn put_head(words: &mut [u64], levels: usize, root: usize, free: usize)
    requires { 3 ≤ length words.old }
    ensures { words.new ≡ put_head_of words.old levels root free }
{
    words[0] = levels as u64;
    words[1] = root as u64;
    words[2] = free as u64;
}

// Makes a tree in the words the words' tree. Of an empty one nothing is kept but that it is empty.
pub fn put_tree(words: &mut [u64], start: usize, levels: usize, root: usize, free: usize)
    requires { RootReady words.old start levels root free }
    ensures { RootWritten words.old words.new levels root free }
{
    if levels == 0 {
        put_head(words, 0, 0, 0);
        return;
    }
    put_head(words, levels, root, free);
}

// The first word of the space that the root is not in.
fn other_start(root: usize) -> usize
    ensures { result ≡ other_start_of root }
{
    if root < UPPER_START {
        UPPER_START
    } else {
        LOWER_START
    }
}

// Sees to it that the root's space has room for one insertion or deletion: where it has not, the tree is copied into the other space.
pub fn compact(words: &mut [u64])
    requires { SoundTree words.old }
    ensures { HasSpace words.old words.new }
{
    let levels = word(words, 0);
    if levels == 0 {
        return;
    }
    let root = word(words, 1);
    let free = word(words, 2);
    let end = space_end(root);
    if STEP_WORDS <= end - free {
        return;
    }
    let start = space_start(root);
    let to = other_start(root);
    let copied = copy_at(words, start, free, to, levels - 1, root);
    put_tree(words, to, levels, copied.at, copied.free);
}
