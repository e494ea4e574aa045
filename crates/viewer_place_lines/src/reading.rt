// One line of places, and the list that they go into.
ghost use Rattle.std.specs.Prelude.{◌≡◌, [], ◌∷◌, ◌++◌, take};
ghost use Rattle.viewer_place_lines.specs.Places.{most_kept};
ghost use Rattle.viewer_place_lines.specs.PlaceReading.{LineTrue, places_of, ListFits};

use crate::PlaceList;

// The largest place of 16 bits.
const MAX_PLACE: u32 = 65535;

// The places that are kept.
const MOST_KEPT: usize = 65;

// The place on a line: digits alone, at least one.
pub(crate) fn place_in(line: &[u8]) -> Option<u16>
    ensures { LineTrue result line.now }
{
    if line.len() == 0 {
        return None;
    }
    let mut number: u32 = 0;
    for byte in line {
        let byte = *byte;
        if byte < b'0' {
            return None;
        }
        if b'9' < byte {
            return None;
        }
        number = 10 * number + ((byte - b'0') as u32);
        if MAX_PLACE < number {
            return None;
        }
    }
    Some(number as u16)
}

// A list without places.
pub(crate) fn no_places() -> PlaceList
    ensures { (places_of result ≡ []) × ListFits result }
{
    PlaceList {
        places: [0; MOST_KEPT],
        count: 0,
    }
}

// The list with a place more; a full one as it is.
pub(crate) fn keep(list: PlaceList, place: u16) -> PlaceList
    requires { ListFits list }
    ensures { (places_of result ≡ take most_kept (places_of list ++ (place ∷ []))) × ListFits result }
{
    let at = list.count;
    if MOST_KEPT <= at {
        return list;
    }
    let mut longer = list;
    longer.places[at] = place;
    longer.count = at + 1;
    longer
}
