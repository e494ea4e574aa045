// Words with a bit for each record: those of the first records, and bits flipped by a mask.
ghost use Rattle.std.specs.Prelude.{◌≡◌, true, ℕ, ◌≤◌, ◌<◌, length};
ghost use Rattle.model.specs.Base.{bit};
ghost use Rattle.block_words.specs.Masks.{Flipped};

// The first n records, a bit for each.
pub(crate) fn first_records(n: usize) -> u64
    requires { n ≤ 64 }
    ensures { (s : ℕ) → s < n → bit result s ≡ true }
{
    if n == 64 {
        return 0xFFFFFFFFFFFFFFFF;
    }
    (1u64 << (n as u64)) - 1
}

// Flips the bits of a mask in the words that changed.
pub fn flip(words: &mut [u64; 64], changed: u64, mask: u64)
    requires { length words.old ≡ 64 }
    ensures { Flipped words.old words.new changed mask }
{
    let mut left = changed;
    while left != 0 {
        let j = u64::trailing_zeros(left) as usize;
        words[j] = words[j] ^ mask;
        left = left & (left - 1);
    }
}
