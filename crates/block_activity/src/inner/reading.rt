// The records of a block, read from the part of the file that begins with the first of them.
ghost use Rattle.std.specs.Prelude.{◌≡◌, ◌≤◌, length};
ghost use Rattle.model.specs.Netlist.{Netlist};
ghost use Rattle.block_activity.specs.Marks.{BlockRead};

use crate::inner::ReadRecords;
use record_test::inner::{check_record, read_vectors, record_length};

// Reads the vectors of up to 64 records, V1 of record t at place t and V2 at place 64 + t, up to the first that its checks refuse.
pub fn read_block(tests: &[u8], inputs: usize, vectors: &mut [u64; 128]) -> ReadRecords
    requires { (1 ≤ inputs) × (inputs ≤ 64) × (length vectors.old ≡ 128) }
    ensures { (length vectors.new ≡ 128)
        × ((N : Netlist) → N.inputs ≡ inputs → BlockRead N tests.now vectors.new result.records result.after) }
{
    let bytes = record_length(inputs);
    let mut at = 0;
    for records in 0..64 {
        if tests.len() - at < bytes {
            let after = Ok(());
            return ReadRecords { records, after };
        }
        let test = &tests[at..at + bytes];
        let answer = check_record(test, inputs);
        match answer {
            Err(why) => {
                let after = Err(why);
                return ReadRecords { records, after };
            }
            Ok(()) => {
                let read = read_vectors(test, inputs);
                vectors[records] = read.v1;
                vectors[64 + records] = read.v2;
                at += bytes;
            }
        }
    }
    let after = Ok(());
    ReadRecords { records: 64, after }
}
