// Words of names: none, copies of them, and their bytes.
ghost use Rattle.std.specs.Prelude.{◌≡◌, ◌+◌, ◌≤◌, length, take};
ghost use Rattle.std.proofs.lemmas.List.Edits.{sets};
ghost use Rattle.text_buffer.specs.Written.{Written};
ghost use Rattle.bench_net_names.specs.Table.{no_names_of, word_bytes};

// A table without a name.
pub(crate) fn no_names() -> [u64; 1024]
    ensures { result ≡ no_names_of }
{
    [0; 1024]
}

// Copies the first n words to the words from a place on.
pub(crate) fn copy_words(to_words: &mut [u64], at: usize, words: &[u64], n: usize)
    requires { (n ≤ length words.now) × (at + n ≤ length to_words.old) }
    ensures { to_words.new ≡ sets to_words.old at (take n words.now) }
{
    to_words[at..at + n].copy_from_slice(&words[..n]);
}

// Puts the bytes of a word, low byte first, as long as any is left that is not 0.
pub(crate) fn put_word(out: &mut [u8], at: usize, word: u64) -> usize
    requires { at + 8 ≤ length out.old }
    ensures { Written out.old out.new at (word_bytes 8 word) result × (result ≤ at + 8) }
{
    let mut rest = word;
    for place in at..at + 8 {
        if rest == 0 {
            return place;
        }
        out[place] = (rest % 256) as u8;
        rest = rest / 256;
    }
    at + 8
}
