// What is checked before a viewer is answered, and the path numbers that he sees.
ghost use Rattle.std.specs.Prelude.{◌≡◌, ◌*◌, ◌≤◌, length};
ghost use Rattle.model.specs.Store.{store_words_count};
ghost use Rattle.viewer_ranges.specs.Ranges.{most_places};
ghost use Rattle.viewer.specs.ViewAnswers.{Opened, LookTrue};

use model::Refusal;
use netlist::inner::{Shape, load};
use store_words::inner::check_words;
use viewer_places::inner::places_fit;
use viewer_ranges::inner::view_ranges;

// The store's words and the places checked, on the tables of a legal netlist.
fn look_on(
    netlist: &[u8],
    counts: &[u64; 512],
    shape: Shape,
    total: u64,
    store: &[u64],
    places: &[u16],
    ranges: &mut [u64],
) -> Result<(usize, u64), Refusal>
    requires { Opened netlist.now counts.now shape total store.now × (2 * most_places ≤ length ranges.old) }
    ensures { LookTrue result netlist.now store.now places.now ranges.new }
{
    check_words(store, total)?;
    let fit = places_fit(places, shape.outputs);
    if !fit {
        return Err(Refusal::ViewerPlaces);
    }
    let count = view_ranges(netlist, counts, shape, places, ranges);
    Ok((count, total))
}

// The netlist, the store's words and the places checked; the ranges of the path numbers that the viewer sees.
pub(crate) fn look(
    netlist: &[u8],
    store: &[u64],
    places: &[u16],
    ranges: &mut [u64],
) -> Result<(usize, u64), Refusal>
    requires { (length store.now ≡ store_words_count) × (2 * most_places ≤ length ranges.old) }
    ensures { LookTrue result netlist.now store.now places.now ranges.new }
{
    let mut counts = [0u64; 512];
    let mut positions = [0u16; 512];
    let legal = load(netlist, &mut counts, &mut positions)?;
    look_on(
        netlist,
        &counts,
        legal.shape,
        legal.total,
        store,
        places,
        ranges,
    )
}
