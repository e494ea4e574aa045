// What a gate's pin or an output adds to a list of runs: those of its net, shifted, or none. A caller proves what a function requires.
pub mod gates;
pub mod outputs;

ghost use Rattle.std.specs.Prelude.{◌<◌, ◌≤◌, ◌^◌, eqb};
ghost use Rattle.run_lists.specs.Answers.{Room, Adds};
ghost use Rattle.run_shifted.specs.RunsOfPlaces.{NetReady, with_net};

use record_bytes::inner::wide_word;
use run_union::inner::append_shifted;

// Adds the runs of a net, shifted, where `opened` is 1, and none where it is 0. Pins are open and shut without a pattern, and a branch on each would be
// mispredicted: a shut pin has 0 times as many runs.
pub(crate) fn add_net(
    opened: usize,
    starts: &[u16; 513],
    net: usize,
    words: &mut [u64],
    start: usize,
    count: usize,
    capacity: usize,
    offset: u64,
) -> Option<usize>
    requires opened_bound { opened < 2 }
    requires room { Room words.old start count capacity }
    requires net_ready { NetReady starts.now words.old start net }
    requires offset_bound { offset ≤ 2 ^ 62 }
    ensures { Adds words.old words.new start capacity
        (with_net starts.now words.old start count (eqb opened 1) offset net) result }
{
    let from = wide_word(starts[net]);
    let to = wide_word(starts[net + 1]);
    append_shifted(
        words,
        from,
        from + (to - from) * opened,
        start,
        count,
        capacity,
        offset,
    )
}
