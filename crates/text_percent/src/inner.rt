// A part of a whole, in thousandths and in percent. Each caller proves that there is a whole and that the part is no more.
ghost use Rattle.std.specs.Prelude.{◌≡◌, ◌*◌, ◌/◌, ◌≤◌, ◌<◌};
ghost use Rattle.text_line.specs.Lines.{text_of, on_line};
ghost use Rattle.text_percent.specs.Shares.{percent_text};

use text_line::{Line, with_number, with_text};

// A part of a whole in thousandths, rounded down: a thousand additions, of which none passes the whole.
pub fn thousandths(part: u64, whole: u64) -> u64
    requires { (0 < whole) × (part ≤ whole) }
    ensures { result ≡ part * 1000 / whole }
{
    let mut quotient: u64 = 0;
    let mut rest: u64 = 0;
    for _ in 0..1000u64 {
        if rest < whole - part {
            rest += part;
        } else {
            rest -= whole - part;
            quotient += 1;
        }
    }
    quotient
}

// The line with a part of a whole in percent at its end, one decimal, rounded down.
pub fn with_percent(line: Line, part: u64, whole: u64) -> Line
    requires { (0 < whole) × (part ≤ whole) }
    ensures { text_of result ≡ on_line (text_of line) (percent_text part whole) }
{
    let share = thousandths(part, whole);
    let whole_percent = with_text(with_number(line, share / 10), b".");
    with_text(with_number(whole_percent, share % 10), b" %")
}
