// A list of output places, judged.
ghost use Rattle.std.specs.Prelude.{◌≡◌};
ghost use Rattle.viewer_places.specs.Viewer.{places_fit_of};

// Whether a list of places is a viewer of a netlist with so many outputs: not empty, strictly ascending, each below that number.
pub fn places_fit(places: &[u16], outputs: usize) -> bool
    ensures { result ≡ places_fit_of outputs places.now }
{
    if places.len() < 1 {
        return false;
    }
    let mut least: usize = 0;
    for place in places {
        let place = *place as usize;
        if place < least {
            return false;
        }
        if outputs <= place {
            return false;
        }
        least = place + 1;
    }
    true
}
