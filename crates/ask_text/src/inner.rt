// Each caller proves what a function requires. Answers are put into a lent buffer.
mod answer_lines;
mod numbers;

ghost use Rattle.std.specs.Prelude.{[], ◌∷◌};
ghost use Rattle.text_buffer.specs.Written.{Written};
ghost use Rattle.ask_text.specs.Questions.{fault_asked};
ghost use Rattle.ask_text.specs.Pieces.{last_text, ByteReady, PieceReady, PieceAnswered};

use crate::inner::answer_lines::put_answer;
use crate::inner::numbers::byte_after;

// What the bytes of a line state: nothing where there are none, a number, or something else.
#[derive(Clone, Copy)]
pub enum Stated {
    Nothing,
    Number(u64),
    Wrong,
}

// Between two bytes of a text: the place of the line at hand, what it states so far, and the bytes of the answers that wait in the buffer.
#[derive(Clone, Copy)]
pub struct Asking {
    pub place: u64,
    pub line: Stated,
    pub bytes: usize,
}

// The state after one more byte; the answer to a line that it ends.
fn take_byte(
    out: &mut [u8],
    paths: u64,
    rising: &[u64],
    falling: &[u64],
    asking: Asking,
    byte: u8,
) -> Asking
    requires { ByteReady asking paths rising.now falling.now out.old }
    ensures { PieceAnswered asking result paths rising.now falling.now (byte ∷ []) out.old out.new }
{
    let Asking { place, line, bytes } = asking;
    if byte == b'\n' {
        let end = put_answer(out, bytes, paths, rising, falling, place, line);
        return Asking {
            place: place + 1,
            line: Stated::Nothing,
            bytes: end,
        };
    }
    let longer = byte_after(line, byte);
    Asking {
        place,
        line: longer,
        bytes,
    }
}

// The answers to the lines that end in a piece of a text, after those that wait in the buffer.
pub fn put_answers(
    out: &mut [u8],
    paths: u64,
    rising: &[u64],
    falling: &[u64],
    asking: Asking,
    piece: &[u8],
) -> Asking
    requires { PieceReady asking paths rising.now falling.now piece.now out.old }
    ensures { PieceAnswered asking result paths rising.now falling.now piece.now out.old out.new }
{
    let mut at = asking;
    for i in 0..piece.len() {
        at = take_byte(out, paths, rising, falling, at, piece[i]);
    }
    at
}

// The answer to what stands after the last end of a line, after those that wait in the buffer; where it ends.
pub fn put_last(
    out: &mut [u8],
    paths: u64,
    rising: &[u64],
    falling: &[u64],
    asking: Asking,
) -> usize
    requires { ByteReady asking paths rising.now falling.now out.old }
    ensures { Written out.old out.new asking.bytes
        (last_text (fault_asked paths rising.now falling.now) asking.place asking.line) result }
{
    let Asking { place, line, bytes } = asking;
    match line {
        Stated::Nothing => bytes,
        Stated::Number(n) => {
            put_answer(out, bytes, paths, rising, falling, place, Stated::Number(n))
        }
        Stated::Wrong => put_answer(out, bytes, paths, rising, falling, place, Stated::Wrong),
    }
}
