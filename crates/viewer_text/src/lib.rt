// What a viewer is shown of a store: the runs and the totals for his outputs, in the listing's lines. The text is promised by an equation.
#![tactic(auto)]

mod lines;

ghost use Rattle.std.specs.Prelude.{◌≡◌};
ghost use Rattle.io.specs.Counts.{IsPrefixLen};
ghost use Rattle.model.specs.Store.{empty_store};
ghost use Rattle.viewer_places.specs.Viewer.{viewer_runs_answer};
ghost use Rattle.viewer_text.specs.ViewText.{view_text, Shown};
ghost use Rattle.model.specs.Returned.{answer_of};

use crate::lines::{no_words, put_answer};
use model::Refusal;
use viewer::viewer_runs;

// Whether a viewer is refused, and the length of the text that he is shown.
#[derive(Drop)]
pub struct View {
    pub answer: Result<(), Refusal>,
    pub length: usize,
}

// Writes what a viewer is shown at the start of a buffer. One under 131,072 bytes is left as it is, and the length is 0.
pub fn put_view(netlist: &[u8], store: &[u64], places: &[u16], out: &mut [u8]) -> View
    ensures shown { Shown out.old out.new (view_text netlist.now store.now places.now) result.length }
    ensures answer_value { answer_of result.answer ≡ viewer_runs_answer netlist.now store.now empty_store places.now }
    ensures prefix_len { IsPrefixLen result.length out.new }
{
    let mut view = no_words();
    let answer = viewer_runs(netlist, store, places, &mut view);
    let length = put_answer(answer, &view, out);
    View { answer, length }
}
