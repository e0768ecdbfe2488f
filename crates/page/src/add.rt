// A row put in, the page packed first where the room at the frontier is short.
ghost use Rattle.std.specs.Prelude.{◌≡◌, length};
ghost use Rattle.page.specs.Packed.{Fitting, Added};

use super::insert::insert_at_frontier;
use super::pack::pack_page;

// The row goes to the frontier if the room between frontier and slots is enough, else the page is packed first.
pub fn insert_row(page: &mut [u8], s: usize, key: &[u8], place: &[u8], scratch: &mut [u8])
    requires { Fitting page.old s key.now place.now × (length scratch.old ≡ length page.old) }
    ensures { Added page.old s key.now place.now scratch.old page.new scratch.new }
{
    let n = words::get16(page, 2);
    let f = words::get16(page, 4);
    if f + 4 * n + 12 + key.len() <= page.len() {
        insert_at_frontier(page, s, key, place);
    } else {
        pack_page(page, scratch);
        insert_at_frontier(page, s, key, place);
    }
}
