// The number that a line states, digit by digit.
ghost use Rattle.std.specs.Prelude.{◌≡◌, ◌≤◌};
ghost use Rattle.ask_text.specs.Questions.{with_digit_of, byte_after_of};

use crate::inner::Stated;

// The largest number that ten times it is one of 64 bits.
const MOST_TENTH: u64 = 1844674407370955161;

// A number with one more digit, where it is one of 64 bits.
fn with_digit(number: u64, digit: u64) -> Stated
    requires { digit ≤ 9 }
    ensures { result ≡ with_digit_of number digit }
{
    if MOST_TENTH < number {
        return Stated::Wrong;
    }
    let tens = 10 * number;
    if u64::MAX - tens < digit {
        return Stated::Wrong;
    }
    Stated::Number(tens + digit)
}

// What a line states with one more byte.
pub(crate) fn byte_after(line: Stated, byte: u8) -> Stated
    ensures { result ≡ byte_after_of line byte }
{
    if byte < b'0' {
        return Stated::Wrong;
    }
    if b'9' < byte {
        return Stated::Wrong;
    }
    let digit = (byte - b'0') as u64;
    match line {
        Stated::Nothing => Stated::Number(digit),
        Stated::Number(n) => with_digit(n, digit),
        Stated::Wrong => Stated::Wrong,
    }
}
