// What the board gives an access at a physical address.
ghost use Rattle.std.specs.Prelude.{◌≡◌};
ghost use Rattle.board.specs.Places.{mapped_of};
ghost use Rattle.reach.specs.Bus.{bus_error, permits, lands_of};

use crate::access::{Kind, Width};
use crate::codes::{DBE, IBE};
use crate::{Fault, Reached};
use board::places::{Place, Sizes, mapped};

fn bus_error(kind: Kind) -> u32
    ensures { result ≡ bus_error kind }
{
    match kind {
        Kind::Fetch => IBE,
        Kind::Load | Kind::Store => DBE,
    }
}

fn permits(kind: Kind, width: Width, place: Place) -> bool
    ensures { result ≡ permits kind width place }
{
    match place {
        Place::Ram(_) => true,
        Place::Execution(_) | Place::Bootstrap(_) => kind != Kind::Store,
        Place::Device(_) => kind != Kind::Fetch && width == Width::Four,
    }
}

pub fn on_bus(kind: Kind, width: Width, sizes: Sizes, p: u32) -> Reached
    ensures { result ≡ lands_of kind width (mapped_of sizes p) }
{
    match mapped(sizes, p) {
        Some(place) if permits(kind, width, place) => Ok(place),
        _ => Err(Fault {
            miss: false,
            code: bus_error(kind),
        }),
    }
}
