// A caller proves what a function requires.
ghost use Rattle.std.specs.Prelude.{◌≡◌, ◌-◌, ◌^◌, ◌<◌, length, get_or};
ghost use Rattle.model.specs.Base.{sum_of};
ghost use Rattle.length_rows.specs.Lengths.{lengths};
ghost use Rattle.length_rows.specs.RowSums.{Room, Under, added, longer};

// The lengths of a row: 0 to 63 gates.
pub const LENGTHS: usize = 64;

// Adds a row to another, each number to that of a length greater by `by`. What would have more than 63 gates is left out.
pub fn add_longer(sums: &mut [u64; 64], row: &[u64; 64], by: usize)
    requires { Room sums.old (longer by (λ l. get_or row.now l 0)) }
    ensures { sums.new ≡ added sums.old (longer by (λ l. get_or row.now l 0)) }
{
    for at in by..LENGTHS {
        sums[at] = sums[at] + row[at - by];
    }
}

// Adds what each number of a row has over that of another.
pub fn add_difference(sums: &mut [u64; 64], high: &[u64; 64], low: &[u64; 64])
    requires { Room sums.old (λ l. get_or high.now l 0 - get_or low.now l 0) × Under low.now high.now }
    ensures { sums.new ≡ added sums.old (λ l. get_or high.now l 0 - get_or low.now l 0) }
{
    for at in 0..LENGTHS {
        sums[at] = sums[at] + (high[at] - low[at]);
    }
}

// The sum of a row.
pub fn row_sum(row: &[u64; 64]) -> u64
    requires { (length row.now ≡ lengths) × (sum_of row.now < 2 ^ 64) }
    ensures { result ≡ sum_of row.now }
{
    let mut sum: u64 = 0;
    for number in row {
        sum += *number;
    }
    sum
}
