// The names of a text's circuit, put into a table by what the converter finds of the text.
ghost use Rattle.std.specs.Prelude.{◌≡◌};
ghost use Rattle.bench_circuit.specs.Judging.{WordsRoom};
ghost use Rattle.bench_circuit.specs.Ending.{TextHeld, TextSound};
ghost use Rattle.bench_net_names.specs.Table.{no_names_of, NamesTold};

use crate::words::copy_words;
use bench_circuit::inner::ending::check_end;
use bench_circuit::inner::judging::{LineRefusal, NameCounts, judge_text};

// Fills the table, with words for the names of inputs, gates and outputs.
pub(crate) fn fill_names(
    text: &[u8],
    names: &mut [u64],
    inputs: &mut [u64],
    gates: &mut [u64],
    outputs: &mut [u64],
)
    requires names_value { names.old ≡ no_names_of }
    requires words_room { WordsRoom inputs.old gates.old outputs.old }
    ensures { NamesTold names.new text.now }
{
    let judged = judge_text(text, inputs, gates, outputs);
    match judged {
        Err(LineRefusal { why: _, line: _ }) => {}
        Ok(counts) => fill_judged(text, names, inputs, gates, outputs, counts),
    }
}

// The same for a text whose lines were all taken.
fn fill_judged(
    text: &[u8],
    names: &mut [u64],
    inputs: &[u64],
    gates: &[u64],
    outputs: &[u64],
    counts: NameCounts,
)
    requires names_value { names.old ≡ no_names_of }
    requires text_held { TextHeld text.now inputs.now gates.now outputs.now counts }
    ensures { NamesTold names.new text.now }
{
    let end = check_end(text, inputs, gates, outputs, counts);
    match end {
        Err(LineRefusal { why: _, line: _ }) => {}
        Ok(()) => {
            let input_words = 2 * counts.inputs;
            let gate_words = 2 * counts.gates;
            copy_words(names, 0, inputs, input_words);
            copy_words(names, input_words, gates, gate_words);
        }
    }
}
