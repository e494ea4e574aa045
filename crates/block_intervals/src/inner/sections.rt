// The runs that an edge of the store holds, in one section for each output: where the search for a run of the output begins and ends. Nearly every record of a
// long file brings nothing new, and then no run is copied. Each caller proves what a function requires.
ghost use Rattle.std.specs.Prelude.{◌≡◌, true, ◌⊎◌, ℕ, ◌+◌, ◌-◌, ◌*◌, ◌/◌, ◌<◌, ◌≤◌, ◌^◌, length};
ghost use Rattle.model.specs.Store.{max_runs};
ghost use Rattle.model.specs.Runs.{run};
ghost use Rattle.run_lists.specs.RunLists.{Sound, runs_in_words};
ghost use Rattle.run_lists.specs.Answers.{RunInside};
ghost use Rattle.block_intervals.specs.Spans.{Ascending, InputSpans};
ghost use Rattle.block_intervals.specs.LiveOutputs.{OutputReady, OutputsReady};
ghost use Rattle.block_intervals.specs.Sections.{SpanHeld, OutputHeld, OutputsHeld, SectionIn, Asked};
ghost use Rattle.block_intervals.specs.Layout.{spans_size, rising_sections, falling_sections};

use crate::layout::{ENDS_AT, RISING_SECTIONS, SECTIONS_SIZE, SHIFTS_AT, SPANS_SIZE};
use block_activity::inner::layout::{OFFSET_TABLE_SIZE, OUTPUT_NETS_AT, OUTPUT_OFFSETS_AT};
use run_lists::inner::first_reaching;

// The sections of both edges, empty.
pub(crate) fn clear_sections(spans: &mut [u64; SPANS_SIZE])
    requires { length spans.old ≡ spans_size }
    ensures { (length spans.new ≡ spans_size) × Ascending spans.new rising_sections × Ascending spans.new falling_sections }
{
    for o in 0..SECTIONS_SIZE {
        spans[RISING_SECTIONS + o] = 0;
    }
}

// Where an output's section begins: at the first held run that reaches the number before the output's first, but not before the section before it. One step after
// the other: all sections of an edge together pass each run once.
fn section_begin(
    offsets: &[u64; OFFSET_TABLE_SIZE],
    outputs: usize,
    output: usize,
    held: &[u64],
    before: usize,
) -> usize
    requires { (output < 64) × (before ≤ length held.now / 2) }
    ensures { (before ≤ result) × (result ≤ length held.now / 2) }
{
    let count = held.len() / 2;
    if outputs <= output {
        return count;
    }
    let low = offsets[OUTPUT_OFFSETS_AT + output];
    for at in before..count {
        if low <= held[2 * at + 1] {
            return at;
        }
    }
    count
}

// A bit for each of the first outputs that the first held run may hold wholly: those whose numbers end before an output that begins in it. What is found is
// asked again where it is used.
fn whole_outputs(offsets: &[u64; OFFSET_TABLE_SIZE], outputs: usize, held: &[u64]) -> u64 {
    if held.len() < 2 {
        return 0;
    }
    let high = held[1];
    let mut whole: u64 = 0;
    for output in 1..outputs.min(64) {
        if high < offsets[OUTPUT_OFFSETS_AT + output] {
            return whole;
        }
        whole = whole | (1u64 << ((output - 1) as u64));
    }
    whole
}

// Finds the sections of the runs that an edge holds. What it finds is only where a search begins and ends.
pub fn find_sections(
    offsets: &[u64; OFFSET_TABLE_SIZE],
    outputs: usize,
    held: &[u64],
    spans: &mut [u64; SPANS_SIZE],
    base: usize,
)
    requires { (length spans.old ≡ spans_size) × ((base ≡ rising_sections) ⊎ (base ≡ falling_sections)) }
    ensures { (length spans.new ≡ spans_size)
        × ((inputs : ℕ) → inputs ≤ 64 → InputSpans spans.old inputs → InputSpans spans.new inputs) }
{
    spans[base + 65] = whole_outputs(offsets, outputs, held);
    let mut at = 0;
    for output in 0..64 {
        at = section_begin(offsets, outputs, output, held, at);
        spans[base + output] = at as u64;
    }
    spans[base + 64] = (held.len() / 2) as u64;
}

// Whether a run lies in the held run that is found between two places; the answer false promises nothing.
fn run_inside(held: &[u64], from: usize, to: usize, low: u64, high: u64) -> bool
    requires { (from ≤ to) × (to ≤ length held.now / 2) }
    ensures { result ≡ true → RunInside held.now 0 (length held.now / 2) (run low high) }
{
    let at = first_reaching(held, from, to, low);
    if held.len() / 2 <= at {
        return false;
    }
    if low < held[2 * at] {
        return false;
    }
    high <= held[2 * at + 1]
}

// The same of each of the runs from..to of the words, shifted.
fn span_inside(
    words: &[u64],
    from: usize,
    to: usize,
    shift: u64,
    held: &[u64],
    begin: usize,
    end: usize,
) -> bool
    requires from_le_to { (from ≤ to) × (2 * to ≤ length words.now) × (shift ≤ 2 ^ 62) × (begin ≤ end) × (end ≤ length held.now / 2) }
    requires sound { Sound (2 ^ 62) (runs_in_words words.now from (to - from)) }
    ensures { result ≡ true → SpanHeld words.now from to shift held.now }
{
    for i in from..to {
        if !run_inside(
            held,
            begin,
            end,
            words[2 * i] + shift,
            words[2 * i + 1] + shift,
        ) {
            return false;
        }
    }
    true
}

// The same of the runs of one output, in its section.
fn output_inside(
    offsets: &[u64; OFFSET_TABLE_SIZE],
    output: usize,
    spans: &[u64; SPANS_SIZE],
    base: usize,
    words: &[u64],
    held: &[u64],
) -> bool
    requires output_bound { (output < 64) × (base ≤ falling_sections) × SectionIn spans.now (base + output) (length held.now / 2) }
    requires output_ready { OutputReady offsets.now spans.now words.now output × (4 * max_runs ≤ length words.now) }
    ensures { result ≡ true → OutputHeld offsets.now spans.now words.now held.now output }
{
    let net = offsets[OUTPUT_NETS_AT + output] as usize;
    let begin = spans[base + output] as usize;
    let end = spans[base + output + 1] as usize;
    span_inside(
        words,
        spans[net] as usize,
        spans[ENDS_AT + net] as usize,
        spans[SHIFTS_AT + net] + offsets[OUTPUT_OFFSETS_AT + output],
        held,
        begin,
        end,
    )
}

// The live outputs that are left to ask. Those of `whole` are not asked where they come before an output that begins in the first held run, and this begins with
// number 1: their runs end before that output's. On long files these are most outputs, and none of their runs is looked at.
fn past_whole(offsets: &[u64; OFFSET_TABLE_SIZE], outs: u64, whole: u64, held: &[u64]) -> u64
    ensures { Asked offsets.now outs held.now result }
{
    let first = u64::trailing_zeros(!whole);
    if 63 < first {
        return outs;
    }
    if whole >> (first as u64) != 0 {
        return outs;
    }
    if outs >> (first as u64) == 0 {
        return outs;
    }
    if held.len() < 2 {
        return outs;
    }
    if 1 < held[0] {
        return outs;
    }
    if held[1] < offsets[OUTPUT_OFFSETS_AT + first as usize] {
        return outs;
    }
    outs & !whole
}

// Whether every run of the live outputs lies in a held run; the answer false promises nothing.
pub fn outputs_inside(
    offsets: &[u64; OFFSET_TABLE_SIZE],
    outs: u64,
    spans: &[u64; SPANS_SIZE],
    base: usize,
    words: &[u64],
    held: &[u64],
) -> bool
    requires { (base ≤ falling_sections) × OutputsReady offsets.now outs spans.now words.now × Ascending spans.now base }
    ensures { result ≡ true → OutputsHeld offsets.now outs spans.now words.now held.now }
{
    if ((held.len() / 2) as u64) < spans[base + 64] {
        return false;
    }
    let mut left = past_whole(offsets, outs, spans[base + 65], held);
    while left != 0 {
        let output = u64::trailing_zeros(left) as usize;
        if !output_inside(offsets, output, spans, base, words, held) {
            return false;
        }
        left = left & (left - 1);
    }
    true
}
