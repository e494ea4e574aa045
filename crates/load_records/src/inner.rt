// The record of a test written: a caller proves what a function requires.
ghost use Rattle.std.specs.Prelude.{[], ◌∷◌, ◌≡◌, ◌+◌, ◌*◌, ◌≤◌, length};
ghost use Rattle.std.proofs.lemmas.List.Edits.{sets};
ghost use Rattle.model.specs.Base.{little_endian};
ghost use Rattle.model.specs.Encode.{test_bytes};

use record_bytes::inner::put;

// Writes the mark of a test record.
fn put_mark(records: &mut [u8], at: usize)
    requires { at + 2 ≤ length records.old }
    ensures { records.new ≡ sets records.old at (0x54 ∷ 0x50 ∷ []) }
{
    records[at] = 0x54;
    records[at + 1] = 0x50;
}

// Writes the record of two vectors of so many bytes each.
pub fn put_test(records: &mut [u8], at: usize, bytes: usize, first: u64, second: u64)
    requires { at + 2 + 2 * bytes ≤ length records.old }
    ensures { records.new ≡ sets records.old at
        (test_bytes (little_endian bytes first) (little_endian bytes second)) }
{
    put_mark(records, at);
    put(records, at + 2, bytes, first);
    put(records, at + 2 + bytes, bytes, second);
}
