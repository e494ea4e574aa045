// The sizes of the picture and of its bars.
ghost use Rattle.std.specs.Prelude.{◌≡◌, ◌<◌};
ghost use Rattle.length_chart.specs.Chart.{longest_below, width_of, height_in};

use text_percent::inner::thousandths;

// The greatest length that has a path, 0 if none has.
fn longest(paths: &[u64; 64]) -> u64
    ensures { (result ≡ longest_below paths.now 64) × (result < 64) }
{
    for left in (0..64).rev() {
        if 0 < paths[left] {
            return left as u64;
        }
    }
    0
}

// The width of the picture.
pub(crate) fn width_of(paths: &[u64; 64]) -> u64
    ensures { result ≡ width_of paths.now }
{
    240 + 24 * longest(paths)
}

// The height of a bar of at most 200: a fifth of the thousandths.
pub(crate) fn height_of(held: u64, paths: u64) -> u64
    ensures { result ≡ height_in held paths }
{
    if paths == 0 {
        return 0;
    }
    if paths < held {
        return 0;
    }
    thousandths(held, paths) / 5
}
