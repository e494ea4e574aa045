// The text of a path: its output, then each gate on the way back to its input, with the names of the nets. It is promised by an equation.
#![tactic(auto)]

mod nets;
mod walk;

ghost use Rattle.std.specs.Prelude.{◌≡◌, length};
ghost use Rattle.text_buffer.specs.Written.{Written, in_room};
ghost use Rattle.bench_net_names.specs.Table.{name_in_of};
ghost use Rattle.path_lines.specs.PathText.{path_text, bench_path_text, path_bytes};

use crate::walk::put_loaded;
use bench_net_names::net_names;
use bench_text::{LineRefusal, NETLIST_BYTES, bench_to_netlist};
use listing_lines::inner::put_refusal;
use model::PATH_WORDS;
use path_faults::PathNo;
use path_of_number::number_to_path;

// The least bytes of a buffer for a path's text.
pub const PATH_BYTES: usize = 65536;

// Puts the text of a number's path at the start of a buffer, and returns its length. A net has the name that a table of names has of it; a table of no
// words has none. A buffer under 65,536 bytes is left as it is, and the length is 0.
pub fn put_path(netlist: &[u8], names: &[u64], number: PathNo, out: &mut [u8]) -> usize
    ensures { Written out.old out.new 0
        (in_room path_bytes out.old (path_text netlist.now (name_in_of names.now) number.0)) result }
{
    if out.len() < PATH_BYTES {
        return 0;
    }
    let mut words = [0u16; PATH_WORDS];
    let answer = number_to_path(netlist, number, &mut words);
    match answer {
        Err(why) => put_refusal(out, 0, why),
        Ok(()) => put_loaded(netlist, names, &words, out),
    }
}

// Bytes for a netlist file.
fn no_bytes() -> [u8; NETLIST_BYTES]
    ensures { length result ≡ 10484 }
{
    [0; NETLIST_BYTES]
}

// Puts the text of a number's path in the circuit of .bench text, where each net has its name, at the start of a buffer, and returns its length. A buffer
// under 65,536 bytes is left as it is, and the length is 0.
pub fn put_bench_path(text: &[u8], number: PathNo, out: &mut [u8]) -> usize
    ensures { Written out.old out.new 0
        (in_room path_bytes out.old (bench_path_text text.now number.0)) result }
{
    if out.len() < PATH_BYTES {
        return 0;
    }
    let names = net_names(text);
    let mut netlist = no_bytes();
    let answer = bench_to_netlist(text, &mut netlist);
    match answer {
        Err(LineRefusal { why, line: _ }) => put_refusal(out, 0, why),
        Ok(length) => put_path(&netlist[..length], &names, number, out),
    }
}
