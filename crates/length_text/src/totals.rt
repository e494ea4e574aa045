// The sum of a row.
ghost use Rattle.std.specs.Prelude.{◌≡◌, ◌+◌};
ghost use Rattle.length_text.specs.LengthTable.{capped, total};

// The sum of two numbers, or the largest of 64 bits where it is more.
fn capped_sum(left: u64, right: u64) -> u64
    ensures { result ≡ capped (left + right) }
{
    if u64::MAX - left < right {
        return u64::MAX;
    }
    left + right
}

// The sum of the 64 numbers of a row, or the largest of 64 bits where it is more.
pub(crate) fn total_of(row: &[u64; 64]) -> u64
    ensures { result ≡ total row.now }
{
    let mut sum: u64 = 0;
    for number in row {
        sum = capped_sum(sum, *number);
    }
    sum
}
