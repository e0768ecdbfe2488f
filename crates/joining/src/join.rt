// The rows of a prefix joined on one page. Over any page shape.
ghost use Rattle.std.specs.Prelude.{◌≡◌, [], ◌∷◌, ◌+◌, ◌*◌, ◌≤◌, ◌<◌, min, length, replicate};
ghost use Rattle.ground.specs.Says.{Says};
ghost use Rattle.hash.specs.Fnv.{fnv};
ghost use Rattle.page.specs.Page.{Slotted, count, code};
ghost use Rattle.partition.specs.Bits.{top};
ghost use Rattle.store.specs.Pages.{size as size_of, page as page_of, contents, set_page};
ghost use Rattle.store.specs.Moves.{find, within};
ghost use Rattle.joining.specs.Join.{Taking, Gathered, Storable, row_with, rows_at, others, other_at, SlotTaking, PageTaking, others_in};
ghost use Rattle.joining.specs.Join.{Used, Emptied, JoinCounted, Rejoined};
ghost use Rattle.counts.specs.Tallies.{BucketsCounted};

use partition::Shape;

// A new row goes to a page at the frontier, its slot in code order.
fn gather_row(to: &mut [u8], key: &[u8], place: &[u8])
    requires { Storable key.now place.now × Taking to.old (row_with key.now place.now ∷ []) }
    ensures { Gathered to.old (row_with key.now place.now ∷ []) to.new }
{
    if let Err(i) = page::find_code(to, key) {
        page::insert_at_frontier(to, i, key, place);
    }
}

// Whether slot i has the code.
fn has_code(from: &[u8], i: usize, key: &[u8]) -> bool
    requires { Slotted from.now × (i < count from.now) }
    ensures { Says result (code from.now i ≡ key.now) }
{
    page::compare_slot(from, i, key).is_eq()
}

// Slot i's row goes to a page, if its code is another.
fn add_other(to: &mut [u8], from: &[u8], i: usize, key: &[u8])
    requires { SlotTaking to.old from.now i key.now }
    ensures { Gathered to.old (other_at key.now from.now i) to.new }
{
    if !has_code(from, i, key) {
        gather_row(to, page::code_at(from, i), page::place_at(from, i));
    }
}

// A page's rows go to another page, those of another code.
fn add_rows(to: &mut [u8], from: &[u8], key: &[u8])
    requires { Slotted from.now × Taking to.old (others key.now (rows_at from.now)) }
    ensures { Gathered to.old (others key.now (rows_at from.now)) to.new }
{
    for i in 0..words::get16(from, 2) {
        add_other(to, from, i, key);
    }
}

// Whether page p is in use; page 0 is no bucket.
fn is_used(s: &[u8], z: Shape, p: usize) -> bool
    requires { p * size_of z + size_of z ≤ length s.now }
    ensures { Says result (Used z s.now p) }
{
    p != 0 && s[p * z.size()] != 0
}

// Page p's rows of another code go to another page, and page p is cleared and no longer counted; the lower of two page numbers.
fn take_page(
    to: &mut [u8],
    s: &mut [u8],
    z: Shape,
    p: usize,
    key: &[u8],
    low: usize,
    tallies: &mut [u32],
) -> usize
    requires { PageTaking z to.old s.old p key.now × BucketsCounted (contents z s.old) tallies.old }
    ensures gathered { Gathered to.old (others key.now (rows_at (page_of z s.old p))) to.new }
    ensures wrote { s.new ≡ set_page z s.old p (replicate (size_of z) 0) }
    ensures counted { BucketsCounted (contents z s.new) tallies.new }
    ensures lowest { result ≡ min low p }
{
    let size = z.size();
    let start = p * size;
    let end = start + size;
    counts::count_down(tallies, 1 + s[start + 1] as usize);
    add_rows(to, store::page_at(s, z, p), key);
    page::clear_page(&mut s[start..end]);
    low.min(p)
}

// What is joined in a store of n pages: the rows of the prefix of j bits of the hash x that are of another code than key.
#[derive(Clone, Copy)]
struct Joined<'a> {
    n: usize,
    x: u32,
    j: u32,
    key: &'a [u8],
}

// They go from the pages of the prefix to another page, and these pages are cleared and no longer counted: entry after entry of the prefix's run, so that no other page is looked at. The lowest-numbered of them.
// Stays: JoinCounted, here and below, speaks of the store and its counts, which each step is lent anew and changes: no type of what is joined can hold it.
fn gather<'a, 's>(
    to: &'s mut [u8],
    s: &'s mut [u8],
    z: Shape,
    of: Joined<'a>,
    tallies: &'s mut [u32],
) -> usize
    requires { JoinCounted z fnv s.old of.n of.x of.j of.key.now tallies.old × Taking to.old (others_in fnv of.j (top of.j of.x) of.key.now (contents z s.old)) }
    ensures gathered { Gathered to.old (others_in fnv of.entry.j (top of.entry.j of.entry.x) of.entry.key.now (contents z s.old)) to.new }
    ensures cleared { Emptied z fnv s.old of.entry.n of.entry.j (top of.entry.j of.entry.x) s.new }
    ensures counted { BucketsCounted (contents z s.new) tallies.new }
    ensures lowest { result ≡ 2 + find (within fnv of.entry.j (top of.entry.j of.entry.x)) (contents z s.old) }
{
    let d = words::get32(s, 16) as u32;
    let mut low = of.n;
    for i in partition::run_of(of.x, of.j, d).entries() {
        let p = words::get32(s, z.size() + 4 * i);
        if is_used(s, z, p) {
            low = take_page(to, s, z, p, of.key, low, tallies);
        }
    }
    low
}

// They go packed into the lowest-numbered of these pages, and the others are cleared; they are gathered on a page lent. The page that they are on.
fn join<'a, 's>(
    s: &'s mut [u8],
    z: Shape,
    of: Joined<'a>,
    tallies: &'s mut [u32],
    scratch: &'s mut [u8],
) -> usize
    requires { (length scratch.old ≡ size_of z) × JoinCounted z fnv s.old of.n of.x of.j of.key.now tallies.old }
    ensures joined { Rejoined z fnv s.old of.entry.n of.entry.j (top of.entry.j of.entry.x) of.entry.key.now result s.new }
    ensures counted { BucketsCounted (contents z s.new) tallies.new }
{
    page::new_page(scratch, of.j as u8);
    let low = gather(scratch, s, z, of, tallies);
    let size = z.size();
    let start = low * size;
    page::pack_into(&mut s[start..start + size], scratch);
    counts::count_up(tallies, 1 + of.j as usize);
    low
}

// The rows joined, with a page lent out of N bytes.
fn join_with<'a, 's, const N: usize>(
    s: &'s mut [u8],
    z: Shape,
    of: Joined<'a>,
    tallies: &'s mut [u32],
) -> usize
    requires { (size_of z ≤ N) × (N ≤ 16384) × JoinCounted z fnv s.old of.n of.x of.j of.key.now tallies.old }
    ensures joined { Rejoined z fnv s.old of.entry.n of.entry.j (top of.entry.j of.entry.x) of.entry.key.now result s.new }
    ensures counted { BucketsCounted (contents z s.new) tallies.new }
{
    let mut scratch = [0u8; N];
    join(s, z, of, tallies, &mut scratch[..z.size()])
}

// The rows of a prefix joined, with a page lent by the size, so that a small one pays for no more.
pub fn join_lent(
    s: &mut [u8],
    z: Shape,
    n: usize,
    x: u32,
    j: u32,
    key: &[u8],
    tallies: &mut [u32],
) -> usize
    requires { JoinCounted z fnv s.old n x j key.now tallies.old }
    ensures joined { Rejoined z fnv s.old n j (top j x) key.now result s.new }
    ensures counted { BucketsCounted (contents z s.new) tallies.new }
{
    let of = Joined { n, x, j, key };
    let size = z.size();
    if size <= 1024 {
        join_with::<1024>(s, z, of, tallies)
    } else if size <= 4096 {
        join_with::<4096>(s, z, of, tallies)
    } else {
        join_with::<16384>(s, z, of, tallies)
    }
}
