// A caller proves what a function requires.
ghost use Rattle.std.specs.Prelude.{◌≤◌, length};
ghost use Rattle.listing_head.specs.ListingHead.{ListedTrue, HeadTrue};

use listing_lines::inner::{put_paths, put_refusal};
use model::{Refusal, known_class};
use netlist::inner::{Loaded, load_by_value};

// The first line of a listing: where it ends in the buffer, and the netlist's tables where netlist and class passed, so that others follow it.
#[derive(Drop)]
pub struct Head {
    pub end: usize,
    pub tables: Option<Loaded>,
}

// The tables of a netlist whose checks pass and then the class.
fn listed_tables(netlist: &[u8], class: u32) -> Result<Loaded, Refusal>
    ensures { ListedTrue result netlist.now class }
{
    let tables = load_by_value(netlist)?;
    let known = known_class(class);
    if !known {
        return Err(Refusal::UnknownClass);
    }
    Ok(tables)
}

// Puts the first line of the listing on a netlist in a class at the start of a buffer. The netlist's checks come before the class.
pub fn put_head(netlist: &[u8], class: u32, out: &mut [u8]) -> Head
    requires { 29 ≤ length out.old }
    ensures { HeadTrue result netlist.now class out.old out.new }
{
    let listed = listed_tables(netlist, class);
    match listed {
        Err(why) => Head {
            end: put_refusal(out, 0, why),
            tables: None,
        },
        Ok(tables) => Head {
            end: put_paths(out, tables.total),
            tables: Some(tables),
        },
    }
}
