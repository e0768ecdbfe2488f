// A row put on a store.
ghost use Rattle.std.specs.Prelude.{◌≡◌, ◌≤◌, length};
ghost use Rattle.ground.specs.Ladder.{Answers};
ghost use Rattle.hash.specs.Fnv.{fnv};
ghost use Rattle.words.specs.Folds.{fold};
ghost use Rattle.page.specs.Page.{code};
ghost use Rattle.partition.specs.Sizes.{shape_of};
ghost use Rattle.store.specs.Pages.{size, page};
ghost use Rattle.store.specs.Tables.{put_accepted, put_by_mode, put_table, meaning};
ghost use Rattle.putting.specs.Put.{new_row, Puttable, Givable, Homeless, Homed, KnownAt, Insertion};

use super::bucket::NewRow;
use super::checked::put_allowed;
use super::split::split_lent;
use super::vacant::vacant_depth;
use directory::{free_pages, lowest_free, name_prefix};
use partition::Shape;
use query::Spot;

// The code at a spot gets another place.
fn replace(s: &mut [u8], z: Shape, at: Spot, place: &[u8]) -> store::Answer
    requires { KnownAt z fnv s.old at.page at.slot place.now }
    ensures { Answers (put_accepted z fnv s.old (new_row (code (page z s.old at.page) at.slot) place.now)) (meaning result, s.new) }
{
    let old = page::read_place(store::page_at(s, z, at.page), at.slot);
    let size = z.size();
    let start = at.page * size;
    page::set_place(&mut s[start..start + size], at.slot, place);
    Ok(store::Done::Replaced(old))
}

// A new row goes to a spot of a page in which it fits; scratch is a page to work in.
// Stays: Insertion, here and below, speaks of the store, too, which changes under the row: no type of spot and row can hold it, nor the store itself, which each step is lent anew.
fn insert_new<'a, 's>(
    s: &'s mut [u8],
    z: Shape,
    at: Spot,
    row: NewRow<'a>,
    scratch: &'s mut [u8],
) -> store::Answer
    requires { Insertion z fnv s.old at.page at.slot row.code.now row.place.now × (length scratch.old ≡ size z) }
    ensures { Answers (put_accepted z fnv s.old (new_row row.entry.code.now row.entry.place.now)) (meaning result, s.new) }
{
    let size = z.size();
    let start = at.page * size;
    page::insert_row(
        &mut s[start..start + size],
        at.slot,
        row.code,
        row.place,
        scratch,
    );
    counts::raise(s, 0);
    Ok(store::Done::New)
}

// A row inserted, with a page to work in out of N bytes.
fn insert_in<'a, 's, const N: usize>(
    s: &'s mut [u8],
    z: Shape,
    at: Spot,
    row: NewRow<'a>,
) -> store::Answer
    requires { (size z ≤ N) × (N ≤ 16384) × Insertion z fnv s.old at.page at.slot row.code.now row.place.now }
    ensures { Answers (put_accepted z fnv s.old (new_row row.entry.code.now row.entry.place.now)) (meaning result, s.new) }
{
    let mut scratch = [0u8; N];
    insert_new(s, z, at, row, &mut scratch[..z.size()])
}

// A row inserted, with a page to work in: of 1,024 bytes where the pages are no longer, so that these pay for no more, else of the largest size.
fn insert_lent<'a, 's>(s: &'s mut [u8], z: Shape, at: Spot, row: NewRow<'a>) -> store::Answer
    requires { Insertion z fnv s.old at.page at.slot row.code.now row.place.now }
    ensures { Answers (put_accepted z fnv s.old (new_row row.entry.code.now row.entry.place.now)) (meaning result, s.new) }
{
    if z.size() <= 1024 {
        insert_in::<1024>(s, z, at, row)
    } else {
        insert_in::<16384>(s, z, at, row)
    }
}

// A row inserted where it fits. Most pages have the room at the frontier: only one that has not, and is packed first, pays for a page to work in.
fn insert_fitting<'a, 's>(s: &'s mut [u8], z: Shape, at: Spot, row: NewRow<'a>) -> store::Answer
    requires { Insertion z fnv s.old at.page at.slot row.code.now row.place.now }
    ensures { Answers (put_accepted z fnv s.old (new_row row.entry.code.now row.entry.place.now)) (meaning result, s.new) }
{
    let size = z.size();
    let page = store::page_at(s, z, at.page);
    let n = words::get16(page, 2);
    let f = words::get16(page, 4);
    if f + 4 * n + 12 + row.code.len() <= size {
        let start = at.page * size;
        page::insert_at_frontier(&mut s[start..start + size], at.slot, row.code, row.place);
        counts::raise(s, 0);
        return Ok(store::Done::New);
    }
    insert_lent(s, z, at, row)
}

// No bucket holds the hash x of the code: a new one takes the lowest free page.
fn new_bucket<'a, 's>(s: &'s mut [u8], z: Shape, x: u32, row: NewRow<'a>) -> store::Answer
    requires { Homeless z fnv s.old x row.code.now row.place.now }
    ensures { Answers (put_accepted z fnv s.old (new_row row.entry.code.now row.entry.place.now)) (meaning result, s.new) }
{
    let size = z.size();
    let n = s.len() / size;
    if free_pages(s, z, n, 1) < 1 {
        return Err(store::Refusal::PagesFull);
    }
    let p = lowest_free(s, z);
    let d = words::get32(s, 16) as u32;
    let k = vacant_depth(s, z, x, d);
    let start = p * size;
    page::start_page(&mut s[start..start + size], k as u8, row.code, row.place);
    name_prefix(s, z, x, k, d, p);
    counts::raise(s, 0);
    counts::raise(s, 1 + k as usize);
    Ok(store::Done::New)
}

// Page p holds the hash of the code; mode 1 wants a new code, mode 2 a known one.
// Stays: the mode is a number; put_row, which calls it, promises for every number (docs/DECISIONS.md, "The mode of an inner put").
fn put_on<'a, 's>(s: &'s mut [u8], z: Shape, p: usize, row: NewRow<'a>, mode: u64) -> store::Answer
    requires { Homed z fnv s.old p row.code.now row.place.now }
    ensures { Answers (put_by_mode z fnv s.old mode (new_row row.entry.code.now row.entry.place.now)) (meaning result, s.new) }
{
    let bucket = store::page_at(s, z, p);
    match page::find_code(bucket, row.code) {
        Ok(slot) => {
            if mode == 1 {
                return Err(store::Refusal::KnownCode);
            }
            replace(s, z, Spot { page: p, slot }, row.place)
        }
        Err(slot) => {
            if mode == 2 {
                return Err(store::Refusal::NoCode);
            }
            let at = Spot { page: p, slot };
            if 12 + row.code.len() <= words::get16(bucket, 6) {
                insert_fitting(s, z, at, row)
            } else {
                split_lent(s, z, at, row)
            }
        }
    }
}

// The row of a code as it is stored, on an accepted store.
// Stays: the mode is a number; docs/DECISIONS.md, "The mode of an inner put", has put_row promise for every number.
pub fn put_row(s: &mut [u8], z: Shape, key: &[u8], place: &[u8], mode: u64) -> store::Answer
    requires { Puttable z fnv s.old key.now place.now }
    ensures { Answers (put_by_mode z fnv s.old mode (new_row key.now place.now)) (meaning result, s.new) }
{
    let x = hash::hash(key);
    let row = NewRow { code: key, place };
    let p = query::entry_of(s, z, x);
    if p == 0 {
        if mode == 2 {
            return Err(store::Refusal::NoCode);
        }
        return new_bucket(s, z, x, row);
    }
    put_on(s, z, p, row, mode)
}

// The row of a given code on an accepted store.
// Stays: the mode is a number, handed on to put_row.
pub fn put_given(s: &mut [u8], z: Shape, key: &[u8], place: &[u8], mode: u64) -> store::Answer
    requires { Givable z fnv s.old key.now place.now }
    ensures { Answers (put_by_mode z fnv s.old mode (new_row (fold key.now) place.now)) (meaning result, s.new) }
{
    let n = key.len();
    let mut low = [0u8; 64];
    words::fold_code(&mut low, key);
    put_row(s, z, &low[0..n], place, mode)
}

// A code gets a place, if it is what the mode expects.
// Stays: the mode is a number; C passes it (lots_put), and one over 2 is refused (put_table). The parameters are that call's, too.
pub fn put(s: &mut [u8], key: &[u8], place: page::Place, mode: u64) -> store::Answer
    ensures { Answers (put_table (shape_of s.old) fnv s.old key.now place mode) (meaning result, s.new) }
{
    let z = store_check::said_shape(s)?;
    if !store::good_code(key) {
        return Err(store::Refusal::BadCode);
    }
    if page::negative(place) {
        return Err(store::Refusal::BadPlace);
    }
    if 2 < mode {
        return Err(store::Refusal::BadMode);
    }
    store_check::accept(s, z)?;
    put_allowed(s, z, key, place, mode)
}
