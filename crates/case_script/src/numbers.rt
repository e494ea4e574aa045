// Decimal numbers and bytes in hexadecimal on a line.
ghost use Rattle.std.specs.Prelude.{◌≤◌};

// The numbers that a part of a line or an answer may have.
pub(crate) const MOST: usize = 8;

// What a byte that is no digit stands for: a space, or nothing that a list of numbers has.
const SPACE: u8 = 16;

const OTHER: u8 = 17;

// The numbers read so far. `good`: nothing else was found, and each fits; `inside`: the last may go on.
#[derive(Clone, Copy)]
pub struct Numbers {
    pub good: bool,
    pub inside: bool,
    pub count: usize,
    pub values: [u64; MOST],
}

// What a byte stands for: a digit in hexadecimal (with A to F), a space, or another.
fn meaning(byte: u8) -> u8
    ensures { result ≤ 17 }
{
    match byte {
        b' ' => SPACE,
        b'0'..=b'9' => byte - b'0',
        b'A'..=b'F' => byte - b'A' + 10,
        _ => OTHER,
    }
}

// The numbers of a part that has something else, too.
fn bad(before: Numbers) -> Numbers {
    let mut after = before;
    after.good = false;
    after
}

// The numbers with one more that begins with a digit.
fn with_first(before: Numbers, digit: u8) -> Numbers {
    let at = before.count;
    if MOST <= at {
        return bad(before);
    }
    let mut after = before;
    after.values[at] = digit as u64;
    after.count = at + 1;
    after.inside = true;
    after
}

// The numbers with a digit more at the end of the last.
fn with_next(before: Numbers, digit: u8) -> Numbers {
    let count = before.count;
    if count == 0 {
        return bad(before);
    }
    if MOST < count {
        return bad(before);
    }
    let at = count - 1;
    let more = digit as u64;
    let mut after = before;
    let number = after.values[at];
    if (u64::MAX - more) / 10 < number {
        return bad(before);
    }
    after.values[at] = 10 * number + more;
    after
}

// The numbers after one byte more of the part.
fn after_byte(before: Numbers, byte: u8) -> Numbers {
    let digit = meaning(byte);
    if digit == SPACE {
        let mut ended = before;
        ended.inside = false;
        return ended;
    }
    if 9 < digit {
        return bad(before);
    }
    if before.inside {
        return with_next(before, digit);
    }
    with_first(before, digit)
}

// The decimal numbers that a part of a line consists of, with spaces between them.
pub fn numbers_in(part: &[u8]) -> Numbers {
    let mut found = Numbers {
        good: true,
        inside: false,
        count: 0,
        values: [0; MOST],
    };
    for byte in part {
        found = after_byte(found, *byte);
    }
    found
}

// A number by its place; 0 where there are fewer.
pub fn number_at(numbers: Numbers, at: usize) -> u64 {
    numbers.values.get(at).copied().unwrap_or(0)
}

// Whether there are so many numbers, and nothing else.
pub fn are(numbers: Numbers, count: usize) -> bool {
    if numbers.count != count {
        return false;
    }
    numbers.good
}

// The bytes written so far. `good`: nothing but bytes was found, and there was space; `waits`: `half` is the first digit of the next byte.
#[derive(Drop)]
pub struct Hex {
    pub good: bool,
    pub waits: bool,
    pub half: u8,
    pub count: usize,
}

// The state after the first digit of a byte, or after what is no byte.
fn hex_state(good: bool, waits: bool, half: u8, count: usize) -> Hex {
    Hex {
        good,
        waits,
        half,
        count,
    }
}

// Writes the byte whose second digit was read.
fn with_byte(cells: &mut [u64], before: Hex, digit: u8) -> Hex {
    let at = before.count;
    if cells.len() <= at {
        return hex_state(false, false, 0, at);
    }
    let byte = (before.half % 16) * 16 + digit % 16;
    cells[at] = byte as u64;
    hex_state(before.good, false, 0, at + 1)
}

// The state after one byte more of the part. A space stands between bytes alone.
fn after_digit(cells: &mut [u64], before: Hex, byte: u8) -> Hex {
    let digit = meaning(byte);
    if digit < 16 {
        if before.waits {
            return with_byte(cells, before, digit);
        }
        return hex_state(before.good, true, digit, before.count);
    }
    if digit == SPACE {
        if before.waits {
            return hex_state(false, false, 0, before.count);
        }
        return before;
    }
    hex_state(false, false, 0, before.count)
}

// How many cells of a memory are handed over after a line, and whether the line was understood.
#[derive(Drop)]
pub struct Length {
    pub good: bool,
    pub length: usize,
}

// The length after a line that is understood.
pub fn length_of(length: usize) -> Length {
    Length { good: true, length }
}

// What a line that is not understood, or that goes past a memory's end, leaves.
pub fn wrong() -> Length {
    Length {
        good: false,
        length: 0,
    }
}

// Writes the bytes that a part of a line consists of, in hexadecimal, from a place on, one to a cell; the place after them.
pub fn put_hex(part: &[u8], cells: &mut [u64], from: usize) -> Length {
    let mut state = hex_state(true, false, 0, from);
    for byte in part {
        state = after_digit(cells, state, *byte);
    }
    if state.waits {
        return wrong();
    }
    Length {
        good: state.good,
        length: state.count,
    }
}
