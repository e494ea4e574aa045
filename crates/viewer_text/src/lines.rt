// The lines of a viewer's answer, put into a buffer.
ghost use Rattle.std.specs.Prelude.{◌≡◌, ◌^◌, length};
ghost use Rattle.io.specs.Counts.{IsPrefixLen};
ghost use Rattle.model.specs.Store.{store_words_count};
ghost use Rattle.store_words.specs.Sound.{SoundWords};
ghost use Rattle.viewer_text.specs.ViewText.{answer_text, Shown};
ghost use Rattle.std.specs.Prelude.{Ok};

use listing_lines::inner::put_refusal;
use listing_text::inner::{OUT_BYTES, put_store};
use model::{Refusal, STORE_WORDS};

// The words of a store.
pub(crate) fn no_words() -> [u64; STORE_WORDS]
    ensures { store_words_count ≡ length result }
{
    [0; STORE_WORDS]
}

// The lines of an answer and of the store that it left.
pub(crate) fn put_answer(answer: Result<(), Refusal>, second: &[u64], out: &mut [u8]) -> usize
    requires { answer ≡ Ok tt → SoundWords (2 ^ 62) second.now }
    ensures shown { Shown out.old out.new (answer_text answer second.now) result }
    ensures prefix_len { IsPrefixLen result out.new }
{
    if out.len() < OUT_BYTES {
        return 0;
    }
    match answer {
        Err(why) => put_refusal(out, 0, why),
        Ok(()) => put_store(out, second),
    }
}
