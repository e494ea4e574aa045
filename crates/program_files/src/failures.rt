// Why a call of the system failed, on standard error.
ghost use Rattle.std.specs.Prelude.{◌≤◌, length};
ghost use Rattle.io.specs.Counts.{IsPrefixLen};

use crate::print_error;
use std::io::{Cursor, Error, Write};

// Room for any reason that the system gives.
const REASON_BYTES: usize = 256;

// Puts an error as std prints it at the start of a space, and returns its length: the system's reason, and its number in parentheses.
fn put_error(error: Error, space: &mut [u8]) -> usize
    ensures { IsPrefixLen result space.new }
{
    let room = space.len();
    let mut cursor = Cursor::new(space);
    // What goes past the end of the space is lost.
    let _ = write!(cursor, "{error}");
    let end = cursor.position();
    if (room as u64) < end {
        return room;
    }
    end as usize
}

// How many bytes stand before the last opening parenthesis and the space before it; all where there is none.
fn reason_length(text: &[u8]) -> usize
    ensures { IsPrefixLen result text.now }
{
    for at in (1..text.len()).rev() {
        if text[at] == b'(' {
            return at - 1;
        }
    }
    text.len()
}

// Writes a line to standard error: what failed, as the caller names it, a colon and the system's reason. Nothing is returned, so there is nothing to promise.
pub fn print_failure(what: &[u8], error: Error) {
    let mut space = [0u8; REASON_BYTES];
    let n = put_error(error, &mut space);
    let reason = reason_length(&space[..n]);
    print_error(what);
    print_error(b": ");
    print_error(&space[..reason]);
    print_error(b"\n");
}
