// New pages, and pages packed.
ghost use Rattle.std.specs.Prelude.{◌≡◌, ◌+◌, ◌≤◌, length, replicate};
ghost use Rattle.page.specs.Page.{Slotted};
ghost use Rattle.page.specs.Packed.{Fresh, PackingAt, PackedTo, Packed, Startable, Started};

use super::insert::{insert_at_frontier, set_head};
use super::read::{code_at, place_at};

// A free page, whatever the bytes held.
pub fn clear_page(page: &mut [u8])
    ensures { page.new ≡ replicate (length page.old) 0 }
{
    let size = page.len();
    words::clear(page, 0, size);
}

// A page with no rows, whatever the bytes held.
pub fn new_page(page: &mut [u8], d: u8)
    requires { (16 ≤ length page.old) × (length page.old ≤ 16384) }
    ensures { Fresh page.old d page.new }
{
    let size = page.len();
    words::clear(page, 0, size);
    page[0] = 1;
    page[1] = d;
    set_head(page, 0, 8, size - 8);
}

// Row i of a page goes behind the rows of another, which has the i rows before it.
fn append(page: &mut [u8], from: &[u8], i: usize)
    requires { PackingAt from.now i page.old }
    ensures { PackedTo from.now (i + 1) page.new }
{
    insert_at_frontier(page, i, code_at(from, i), place_at(from, i));
}

// The rows of a page, packed.
pub fn pack_into(page: &mut [u8], from: &[u8])
    requires { Slotted from.now × (length page.old ≡ length from.now) }
    ensures { Packed from.now page.new }
{
    let n = words::get16(from, 2);
    let d = from[1];
    new_page(page, d);
    for i in 0..n {
        append(page, from, i);
    }
}

// A page packed in place; scratch gets what it held.
pub fn pack_page(page: &mut [u8], scratch: &mut [u8])
    requires { Slotted page.old × (length scratch.old ≡ length page.old) }
    ensures { Packed page.old page.new × (scratch.new ≡ page.old) }
{
    words::copy_at(scratch, 0, page);
    pack_into(page, scratch);
}

// A page of one row.
pub fn start_page(page: &mut [u8], d: u8, key: &[u8], place: &[u8])
    requires { Startable page.old key.now place.now }
    ensures { Started page.old d key.now place.now page.new }
{
    new_page(page, d);
    insert_at_frontier(page, 0, key, place);
}
