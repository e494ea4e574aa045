// The lists of live gates, one for each record of a block. An entry is 256 net + the byte of its active pins.
ghost use Rattle.std.specs.Prelude.{◌≡◌, [], ◌∷◌, ◌+◌, ◌*◌, ◌≤◌, ◌<◌};
ghost use Rattle.model.specs.Base.{bit};
ghost use Rattle.block_words.specs.Words.{bits_at, first_words};
ghost use Rattle.gate_packed_pins.specs.Packed.{pack_bits};
ghost use Rattle.block_words.specs.Lists.{ListRoom, LowestRecord, entry_of, Pushed};

use crate::inner::layout::LIST_SIZE;
use record_bytes::inner;

// One bit of a word.
fn bit_of(word: u64, place: u64) -> u32
    requires { place < 64 }
    ensures { result ≡ pack_bits (bits_at (word ∷ []) place) }
{
    ((word >> place) & 1) as u32
}

// The pins that are active in a record, a bit for each. Nearly every gate has two pins, which want no loop.
fn byte_of(rows: &[u64; 8], pins: usize, place: u64) -> u32
    requires { (pins ≤ 8) × (place < 64) }
    ensures { (result ≡ pack_bits (bits_at (first_words rows.now pins) place)) × (result < 256) }
{
    if pins == 2 {
        return bit_of(rows[0], place) + 2 * bit_of(rows[1], place);
    }
    let mut byte: u32 = 0;
    for k in (0..pins).rev() {
        byte = 2 * byte + bit_of(rows[k], place);
    }
    byte
}

// The lowest record of a word that has one.
fn lowest_record(records: u64) -> usize
    requires { records ≡ 0 → ⊥ }
    ensures { LowestRecord records result }
{
    u64::trailing_zeros(records) as usize
}

// Adds the entry of a net to the lists of the records of a word.
pub fn push(
    list: &mut [u32],
    lens: &mut [u16; 64],
    records: u64,
    net: usize,
    rows: &[u64; 8],
    pins: usize,
)
    requires { ListRoom list.old lens.old × (net < 512) × (pins ≤ 8) }
    ensures { Pushed list.old lens.old list.new lens.new (λ t. bit records t) (entry_of net rows.now pins) }
{
    let mut left = records;
    while left != 0 {
        let t = lowest_record(left);
        let byte = byte_of(rows, pins, t as u64);
        let len = inner::wide_word(lens[t]);
        list[LIST_SIZE * t + len] = 256 * (net as u32) + byte;
        lens[t] = (len + 1) as u16;
        left = left & (left - 1);
    }
}
