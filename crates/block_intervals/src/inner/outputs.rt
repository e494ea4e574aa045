// The runs of the detected path numbers, from those of the live outputs' nets.
ghost use Rattle.model.specs.Store.{max_runs};
ghost use Rattle.run_lists.specs.Answers.{Adds};
ghost use Rattle.block_intervals.specs.LiveOutputs.{OutputsReady, runs_of_outputs};

use crate::layout::{ENDS_AT, SHIFTS_AT, SPANS_SIZE};
use block_activity::inner::layout::{OFFSET_TABLE_SIZE, OUTPUT_NETS_AT, OUTPUT_OFFSETS_AT};
use model::MAX_RUNS;
use run_union::inner::append_shifted;

// Makes the runs of the detected path numbers, output by output, in the second quarter of the words. `outs` has a bit for each output at a live gate's net.
pub fn out_runs(
    offsets: &[u64; OFFSET_TABLE_SIZE],
    outs: u64,
    spans: &[u64; SPANS_SIZE],
    words: &mut [u64],
) -> Option<usize>
    requires { OutputsReady offsets.now outs spans.now words.old }
    ensures { Adds words.old words.new max_runs max_runs
        (runs_of_outputs offsets.now outs spans.now words.old) result }
{
    let mut left = outs;
    let mut count = 0;
    while left != 0 {
        let output = u64::trailing_zeros(left) as usize;
        let net = offsets[OUTPUT_NETS_AT + output] as usize;
        count = append_shifted(
            words,
            spans[net] as usize,
            spans[ENDS_AT + net] as usize,
            MAX_RUNS,
            count,
            MAX_RUNS,
            spans[SHIFTS_AT + net] + offsets[OUTPUT_OFFSETS_AT + output],
        )?;
        left = left & (left - 1);
    }
    Some(count)
}
