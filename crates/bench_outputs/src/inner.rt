// The records of the outputs, written by the keys of their names. Each caller proves what a function requires.
ghost use Rattle.std.specs.Prelude.{◌+◌, ◌*◌, ◌≤◌, length};
ghost use Rattle.bench_outputs.specs.OutputWriting.{RoomFor, BytesPut, one_output, key_outputs};

use bench_lines::inner::keys::find_key;
use record_bytes::inner::put;

// Writes an output's record, if it is one; the place after it.
fn put_output(out: &mut [u8], to_place: usize, net: usize, listed: bool) -> usize
    requires { RoomFor to_place (one_output listed net) out.old }
    ensures { BytesPut result out.old out.new to_place (one_output listed net) }
{
    if listed {
        put(out, to_place, 2, 0x554F);
        put(out, to_place + 2, 2, net as u64);
        return to_place + 4;
    }
    to_place
}

// Writes the records of the outputs among n names, the first of which has net `first`; the place after them.
pub fn put_outputs(
    out: &mut [u8],
    to_place: usize,
    words: &[u64],
    n: usize,
    first: usize,
    outputs: &[u64],
    output_count: usize,
) -> usize
    requires n_in_bounds { (2 * n ≤ length words.now) × (2 * output_count ≤ length outputs.now) × (first + n ≤ 1024) }
    requires room_for { RoomFor to_place (key_outputs outputs.now output_count words.now n 0 first) out.old }
    ensures { BytesPut result out.old out.new to_place
        (key_outputs outputs.now output_count words.now n 0 first) }
{
    let mut write = to_place;
    for k in 0..n {
        let low = words[2 * k];
        let high = words[2 * k + 1];
        let place = find_key(outputs, output_count, low, high);
        write = put_output(out, write, first + k, place < output_count);
    }
    write
}
