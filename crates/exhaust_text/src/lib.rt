// What all pairs of a small block show: runs and totals in the listing's lines, the number of the faults that no test detects, and the first of these. Text
// and list are promised by equations.
#![tactic(auto)]

mod lines;

ghost use Rattle.std.specs.Prelude.{◌≡◌};
ghost use Rattle.io.specs.Counts.{IsPrefixLen};
ghost use Rattle.model.specs.Read.{read_netlist};
ghost use Rattle.exhaust_text.specs.BlockText.{BlockTrue, paths_of};

use crate::lines::{list_faults, no_faults, no_store, no_work, put_lines};
use exhaust::{StoreTotals, exhaust};
use exhaust_undetected::inner::LISTED;
use listing_lines::inner::put_refusal;
use listing_text::inner::OUT_BYTES;
use model::Refusal;
use netlist::survey;

// Numbers of faults, and how many they are.
#[derive(Drop)]
pub struct FaultList {
    pub numbers: [u64; LISTED],
    pub count: usize,
}

// Whether the pairs are refused, the length of the text, and the faults that are listed after it.
#[derive(Drop)]
pub struct BlockShown {
    pub answer: Result<StoreTotals, Refusal>,
    pub length: usize,
    pub faults: FaultList,
}

// Writes what all pairs of a netlist show in a class at the start of a buffer.
pub fn put_block(netlist: &[u8], class: u32, out: &mut [u8; OUT_BYTES]) -> BlockShown
    ensures block_true { BlockTrue result netlist.now class out.old out.new }
    ensures prefix_len { IsPrefixLen result.length out.new }
    ensures prefix_len_2 { IsPrefixLen result.faults.count result.faults.numbers }
{
    let mut store = no_store();
    let mut work = no_work();
    let answer = exhaust(netlist, class, &mut store, &mut work);
    let paths = paths_in(netlist);
    match answer {
        Err(why) => {
            let length = put_refusal(out, 0, why);
            BlockShown {
                answer,
                length,
                faults: no_faults(),
            }
        }
        Ok(_) => {
            let length = put_lines(&store, paths, out);
            BlockShown {
                answer,
                length,
                faults: list_faults(&store, paths),
            }
        }
    }
}

// The number of a netlist's paths; a refused netlist has none.
fn paths_in(netlist: &[u8]) -> u64
    ensures { result ≡ paths_of (read_netlist netlist.now) }
{
    let surveyed = survey(netlist);
    match surveyed {
        Err(_) => 0,
        Ok(legal) => legal.total,
    }
}
