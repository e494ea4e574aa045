// The names of the nets of .bench text: a table of them, filled in one pass over the text, and the name of a net from the table.
#![tactic(auto)]

mod filling;
mod words;

ghost use Rattle.std.specs.Prelude.{◌≡◌};
ghost use Rattle.text_buffer.specs.Written.{Written, in_room};
ghost use Rattle.bench_net_names.specs.Table.{NamesTold, name_in_of};

use crate::filling::fill_names;
use crate::words::{no_names, put_word};

// The words of a table: two for each of 512 nets.
pub const NAME_WORDS: usize = 1024;

// The least bytes of a buffer for a name.
pub const NAME_BYTES: usize = 16;

// The table of a text's names. That of a text that the converter refuses has no name.
pub fn net_names(text: &[u8]) -> [u64; NAME_WORDS]
    ensures { NamesTold result text.now }
{
    let mut inputs = [0u64; 128];
    let mut gates = [0u64; 1024];
    let mut outputs = [0u64; 128];
    let mut names = no_names();
    fill_names(text, &mut names, &mut inputs, &mut gates, &mut outputs);
    names
}

// Puts the name of a net at the start of a buffer, and returns its length: 0 where the table has no such name. A buffer under 16 bytes is left as it
// is.
pub fn put_name(names: &[u64], net: usize, out: &mut [u8]) -> usize
    ensures { Written out.old out.new 0 (in_room 16 out.old (name_in_of names.now net)) result }
{
    if out.len() < NAME_BYTES {
        return 0;
    }
    if names.len() / 2 <= net {
        return 0;
    }
    let middle = put_word(out, 0, names[2 * net]);
    put_word(out, middle, names[2 * net + 1])
}
