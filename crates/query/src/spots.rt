// The rows of an accepted store: found by code, and by their place in the listing.
ghost use Rattle.std.specs.Prelude.{◌≡◌, ℕ, ◌+◌, ◌-◌, ◌*◌, ◌^◌, ◌≤◌, ◌<◌, length};
ghost use Rattle.ground.specs.Lists.{byte};
ghost use Rattle.hash.specs.Fnv.{fnv};
ghost use Rattle.partition.specs.Bits.{top};
ghost use Rattle.store.specs.Pages.{size, dir_depth, entry_at};
ghost use Rattle.store.specs.Accepted.{Accepted};
ghost use Rattle.store.specs.Demands.{Sized};
ghost use Rattle.query.specs.Asked.{Sought};
ghost use Rattle.query.specs.Spots.{DirectoryOf, ShallowAt, StandsAt, Listed};
ghost use Rattle.query.specs.Cursors.{At, Steppable, Stepped};

use super::{Cursor, Spot};
use partition::Shape;

// The entry that a hash's top bits give.
pub fn entry_of(s: &[u8], z: Shape, x: u32) -> usize
    requires { DirectoryOf z s.now (dir_depth s.now) }
    ensures { (result ≡ entry_at z s.now (top (dir_depth s.now) x)) × (result < 4294967296) }
{
    let d = words::get32(s, 16) as u32;
    let i = partition::top_bits(x, d) as usize;
    words::get32(s, z.size() + 4 * i)
}

// Where the row of a code of the hash x stands.
pub fn find_row(s: &[u8], z: Shape, key: &[u8], x: u32) -> Option<Spot>
    requires { Sought z fnv s.now key.now x }
    ensures { StandsAt z s.now key.now result }
{
    let p = entry_of(s, z, x);
    if p == 0 {
        return None;
    }
    match page::find_code(store::page_at(s, z, p), key) {
        Ok(slot) => Some(Spot { page: p, slot }),
        Err(_) => None,
    }
}

// The number of entries of the page at offset a, in a directory of depth d.
pub fn entries_of(s: &[u8], a: usize, d: u32) -> usize
    requires { ShallowAt s.now a d }
    ensures { result ≡ 2 ^ (d - byte s.now (a + 1)) }
{
    partition::two_to(d - s[a + 1] as u32)
}

// The cursor before place n of the listing; 0 is its start.
pub fn cursor_at(s: &[u8], z: Shape, n: usize) -> Cursor
    requires { Sized z × Accepted z fnv s.now }
    ensures { At z s.now n result }
{
    Cursor { entry: 0, slot: n }
}

// One row on, from any place before which the cursor stands: bucket after bucket by first entry, each once.
pub fn next_row(s: &[u8], z: Shape, c: Cursor) -> Option<(Spot, Cursor)>
    requires { Steppable z s.now c }
    ensures { (n : ℕ) → At z s.now n c → Stepped z s.now n result }
{
    let d = words::get32(s, 16) as u32;
    let end = partition::two_to(d);
    let mut left = c.slot;
    let mut i = c.entry;
    // Stays: it goes on by as many entries as a page has, which no range does.
    while i < end {
        let page = words::get32(s, z.size() + 4 * i);
        if page == 0 {
            i += 1;
        } else {
            let k = words::get16(store::page_at(s, z, page), 2);
            if left < k {
                let behind = Cursor {
                    entry: i,
                    slot: left + 1,
                };
                return Some((Spot { page, slot: left }, behind));
            }
            left -= k;
            i += entries_of(s, page * z.size(), d);
        }
    }
    None
}

// Where the row at place n of the listing stands.
pub fn nth_row(s: &[u8], z: Shape, n: usize) -> Option<Spot>
    requires { Sized z × Accepted z fnv s.now }
    ensures { Listed z s.now n result }
{
    let (spot, _) = next_row(s, z, cursor_at(s, z, n))?;
    Some(spot)
}
