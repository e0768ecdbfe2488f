// Places: three signed numbers, and the 8 bytes that hold them in a row.
ghost use Rattle.std.specs.Prelude.{◌≡◌, ◌<◌, length};
ghost use Rattle.ground.specs.Says.{Says};
ghost use Rattle.page.specs.Page.{Slotted, Natural, count, place};
ghost use Rattle.page.specs.Places as Places;
ghost use Rattle.page.specs.Steps.{Overwritable, Overwritten};

use super::read::{extent_of, place_at};
use crate::{Extent, Place};

// Whether a part of the place is negative.
pub fn negative(p: Place) -> bool
    ensures { Says result (Places.Negative p) }
{
    p.page < 0 || p.slot < 0 || p.volume < 0
}

// The 8 bytes of a place.
pub fn store_place(out: &mut [u8], p: Place)
    requires { (length out.old ≡ 8) × (Places.Negative p → ⊥) }
    ensures { out.new ≡ Places.stored p }
{
    words::put32(out, 0, p.page as usize);
    words::put16(out, 4, p.slot as usize);
    words::put16(out, 6, p.volume as usize);
}

// The place that 8 bytes hold.
pub fn load_place(b: &[u8]) -> Place
    requires { Natural b.now }
    ensures { result ≡ Places.place_from b.now }
{
    Place {
        page: words::get32(b, 0) as i32,
        slot: words::get16(b, 4) as i16,
        volume: words::get16(b, 6) as i16,
    }
}

// The place of slot i's row.
pub fn read_place(page: &[u8], i: usize) -> Place
    requires { Slotted page.now × (i < count page.now) }
    ensures { result ≡ Places.place_from (place page.now i) }
{
    load_place(place_at(page, i))
}

// Slot s gets another place.
pub fn set_place(page: &mut [u8], s: usize, place: &[u8])
    requires { Overwritable page.old s place.now }
    ensures { Overwritten page.old s place.now page.new }
{
    let Extent { off, .. } = extent_of(page, s);
    words::copy_at(page, off, place);
}
