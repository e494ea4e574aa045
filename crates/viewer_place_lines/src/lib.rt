// Output places from text, one a line: the list of places of a viewer.
#![tactic(auto)]

mod reading;

ghost use Rattle.std.specs.Prelude.{◌≡◌};
ghost use Rattle.io.specs.Counts.{IsPrefixLen};
ghost use Rattle.viewer_place_lines.specs.Places.{places_in, kept};
ghost use Rattle.viewer_place_lines.specs.PlaceReading.{told_by};

use crate::reading::{keep, no_places, place_in};
use bench_lines::inner::lines::next_line;

// The first places of a text and their number. One more is kept than any netlist has outputs.
#[derive(Drop)]
pub struct PlaceList {
    pub places: [u16; 65],
    pub count: usize,
}

// A text that was read.
#[derive(Drop)]
pub struct PlacesRead {
    pub answer: Result<(), usize>,
    pub list: PlaceList,
}

// The places that a text lists, the first 65 of them.
pub fn read_places(text: &[u8]) -> PlacesRead
    ensures list_value { told_by result.answer result.list ≡ kept (places_in text.now) }
    ensures prefix_len { IsPrefixLen result.list.count result.list.places }
{
    let mut list = no_places();
    let mut before: usize = 0;
    let mut at = 0;
    while at < text.len() {
        let ends = next_line(text, at);
        let stop = ends.stop;
        let line = place_in(&text[at..stop]);
        match line {
            None => {
                return PlacesRead {
                    answer: Err(before + 1),
                    list,
                };
            }
            Some(place) => {
                list = keep(list, place);
            }
        }
        at = ends.next;
        before += 1;
    }
    PlacesRead {
        answer: Ok(()),
        list,
    }
}
