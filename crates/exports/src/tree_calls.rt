// The calls on a tree for C.
ghost use Rattle.std.specs.Prelude.{◌≡◌};
ghost use Rattle.model.specs.Base.{passes, after};
ghost use Rattle.tree_words.specs.TreeLayout.{tree_runs};
ghost use Rattle.tree_words.specs.Calls.{run_of, empty_tree_call, emptied_tree, insert_call, delete_call, Holding, search_call, total_call, holds_call};
ghost use Rattle.tree.specs.Each.{held_words, each_call};
ghost use Rattle.c_answer_words.specs.Codes.{code_answer, Answered, number_word};
ghost use Rattle.c_tree.specs.AnswerWords.{found_words, asked_words};

use c_answer_words::inner::{code_of, count_code};
use path_faults::PathNo;

// Empties a tree, of any words.
#[unsafe(no_mangle)]
pub extern "C" fn genduwal_tree_empty(tree: &mut [u64]) -> u32
    ensures result_value { code_answer result ≡ empty_tree_call tree.old }
    ensures tree_after { tree.new ≡ emptied_tree tree.old }
{
    let emptied = tree::tree_empty(tree);
    code_of(emptied)
}

// Inserts the run low..high, merged with the runs that overlap it or are adjacent.
#[unsafe(no_mangle)]
pub extern "C" fn genduwal_tree_insert(tree: &mut [u64], low: u64, high: u64) -> u32
    ensures result_value { code_answer result ≡ passes (insert_call tree.old (run_of low high)) }
    ensures holding { Holding (insert_call tree.old (run_of low high)) tree.old tree.new }
{
    let changed = tree::tree_insert(tree, low, high);
    code_of(changed)
}

// Deletes the stored run low..high.
#[unsafe(no_mangle)]
pub extern "C" fn genduwal_tree_delete(tree: &mut [u64], low: u64, high: u64) -> u32
    ensures result_value { code_answer result ≡ passes (delete_call tree.old (run_of low high)) }
    ensures holding { Holding (delete_call tree.old (run_of low high)) tree.old tree.new }
{
    let changed = tree::tree_delete(tree, low, high);
    code_of(changed)
}

// The least run that overlaps low..high, else the adjacent one with the least low: 1, its low and its high; zeros where there is none.
#[unsafe(no_mangle)]
pub extern "C" fn genduwal_tree_search(
    tree: &[u64],
    low: u64,
    high: u64,
    answer: &mut [u64; 3],
) -> u32
    ensures { Answered (search_call tree.now (run_of low high)) found_words result answer.old answer.new }
{
    let found = tree::tree_search(tree, low, high);
    c_tree::found_code(found, answer)
}

// How many numbers a tree holds.
#[unsafe(no_mangle)]
pub extern "C" fn genduwal_tree_total(tree: &[u64], answer: &mut [u64; 1]) -> u32
    ensures { Answered (total_call tree.now) number_word result answer.old answer.new }
{
    let total = tree::tree_total(tree);
    c_tree::total_code(total, answer)
}

// Whether a tree holds a path number, 1 if it does, else 0, and the nodes visited for the answer.
#[unsafe(no_mangle)]
pub extern "C" fn genduwal_tree_holds(tree: &[u64], number: u64, answer: &mut [u64; 2]) -> u32
    ensures { Answered (holds_call tree.now number) asked_words result answer.old answer.new }
{
    let held = tree::tree_holds(tree, PathNo(number));
    c_tree::holds_code(held, answer)
}

// Whether a tree holds each of the numbers, with one check of its words: an answer word for each, and the tree's levels.
#[unsafe(no_mangle)]
pub extern "C" fn genduwal_tree_holds_each(
    tree: &[u64],
    numbers: &[u64],
    answers: &mut [u64],
    answer: &mut [u64; 1],
) -> u32
    ensures answered { Answered (each_call tree.now) number_word result answer.old answer.new }
    ensures answers_after { answers.new ≡
        after (each_call tree.now) answers.old (λ n. held_words (tree_runs tree.now) numbers.now answers.old) }
{
    let asked = tree::tree_holds_each(tree, numbers, answers);
    count_code(asked, answer)
}
