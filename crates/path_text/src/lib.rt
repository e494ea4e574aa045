// A path in gates, as the programs print it: its output, then each gate on the way back to its input. The text is that of path_lines.
#![tactic(auto)]

ghost use Rattle.std.specs.Prelude.{◌≡◌, length};

use path_faults::PathNo;
use path_lines::{PATH_BYTES, put_bench_path, put_path};
use program_sentences::print;

// Bytes for the text of a path.
fn no_text() -> [u8; PATH_BYTES]
    ensures { length result ≡ 65536 }
{
    [0; PATH_BYTES]
}

// Writes the path of a number, a line for each gate, or `refused` and the number of the refusal. The table of names has no word.
pub fn print_path(fd: i32, netlist: &[u8], number: PathNo) {
    let names = [0u64; 0];
    let mut out = no_text();
    let length = put_path(netlist, &names, number, &mut out);
    print(fd, &out[..length]);
}

// The same in the circuit of .bench text, with the names of the nets.
pub fn print_bench_path(fd: i32, text: &[u8], number: PathNo) {
    let mut out = no_text();
    let length = put_bench_path(text, number, &mut out);
    print(fd, &out[..length]);
}
