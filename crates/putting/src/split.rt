// A page that is split.
ghost use Rattle.std.specs.Prelude.{◌≡◌, ◌+◌, ◌/◌, ◌^◌, ◌≤◌, ◌<◌};
ghost use Rattle.words.specs.Le.{le32};
ghost use Rattle.counts.specs.Tallies.{CountsNow, one_less};
ghost use Rattle.ground.specs.Ladder.{Answers};
ghost use Rattle.hash.specs.Fnv.{fnv};
ghost use Rattle.partition.specs.Bits.{top};
ghost use Rattle.store.specs.Pages.{size, pages, contents};
ghost use Rattle.store.specs.Tables.{put_accepted, meaning};
ghost use Rattle.putting.specs.Put.{new_row, Crowded, Lent};
ghost use Rattle.putting.specs.Split.{with_new, taken_next, PageComing, NamingBucket, NamedIf, Spread, BucketsWritten, SplitCounted};

use super::bucket::{NewRow, Rows, write_bucket};
use super::weigh::{Weight, count_below, gather, load};
use counts::Tallies;
use directory::{free_pages, lowest_free, name_prefix, settle_depth};
use partition::Shape;
use query::Spot;

// The page that the next bucket takes: page at, or the lowest free page where at is 0.
fn next_page(s: &[u8], z: Shape, at: usize) -> usize
    requires { PageComing z s.now at }
    ensures { (result ≡ 2 + taken_next (contents z s.now) at) × (result < pages z s.now) }
{
    if at == 0 {
        return lowest_free(s, z);
    }
    at
}

// A hash that begins with the k bits of v.
fn hash_under(v: u64, k: u32) -> u32
    requires { (k ≤ 12) × (v < 2 ^ k) }
    ensures { top k result ≡ v }
{
    (v << (32 - k)) as u32
}

// The entries that the prefix v of k bits calls for name page p, if the directory, of depth d, has entries for it.
fn name_bucket(s: &mut [u8], z: Shape, k: u32, v: u64, d: u32, p: usize)
    requires { NamingBucket z s.old k v d p }
    ensures { NamedIf z s.old d k v p s.new }
{
    if k <= d {
        name_prefix(s, z, hash_under(v, k), k, d, p);
    }
}

// The buckets at the prefix v of k bits and below it are written packed, the first to page at unless that is 0, each next to the lowest free page, and their entries in the directory, of depth d, name them. Page at where none is written, else 0.
fn write_below<'a, 's>(
    s: &'s mut [u8],
    z: Shape,
    d: u32,
    rows: Rows<'a>,
    k: u32,
    v: u64,
    at: usize,
) -> usize
    requires { Spread z fnv d s.old rows.from.now rows.i rows.row.code.now rows.row.place.now rows.ws.now k v at }
    ensures { BucketsWritten z fnv d (with_new rows.entry.from.now (new_row rows.entry.row.code.now rows.entry.row.place.now)) k v s.old at s.new result }
{
    let need = load(rows.from, rows.row.code, rows.ws, k, v);
    if need == 0 {
        return at;
    }
    if need <= z.capacity {
        let p = next_page(s, z, at);
        let size = z.size();
        let start = p * size;
        write_bucket(&mut s[start..start + size], rows, k, v);
        name_bucket(s, z, k, v, d, p);
        return 0;
    }
    if k as usize == z.deepest {
        return at;
    }
    let next = write_below(s, z, d, rows, k + 1, 2 * v, at);
    write_below(s, z, d, rows, k + 1, 2 * v + 1, next)
}

// The counts in page 0 after a split of a bucket of k bits: the array has those before it and those of the new buckets.
fn write_split(s: &mut [u8], k: u32, mut tallies: Tallies)
    requires { SplitCounted s.old k tallies }
    ensures { CountsNow s.old (le32 s.old 24 + 1) (one_less tallies (1 + k)) s.new }
{
    counts::count_down(&mut tallies, 1 + k as usize);
    let rows = counts::rows_counted(s);
    counts::write_counted(s, &tallies, rows + 1);
}

// The new row, whose code belongs at a spot, does not fit there: the page is split into the buckets of its rows and the new one. What it works in is lent.
// Stays: Crowded, here and below, speaks of the store, too, as Insertion does.
fn split<'a, 's>(
    s: &'s mut [u8],
    z: Shape,
    at: Spot,
    row: NewRow<'a>,
    from: &'s mut [u8],
    ws: &'s mut [Weight],
) -> store::Answer
    requires { Crowded z fnv s.old at.page at.slot row.code.now row.place.now × Lent z from.old ws.old }
    ensures { Answers (put_accepted z fnv s.old (new_row row.entry.code.now row.entry.place.now)) (meaning result, s.new) }
{
    words::copy_at(from, 0, store::page_at(s, z, at.page));
    gather(from, row.code, ws);
    let x = hash::hash(row.code);
    let deepest = z.deepest as u32;
    if z.capacity < load(from, row.code, ws, deepest, partition::top_bits(x, deepest)) {
        return Err(store::Refusal::PrefixFull);
    }
    let n = s.len() / z.size();
    let k = from[1] as u32;
    let v = partition::top_bits(x, k);
    let mut tallies = counts::read_counts(s);
    let m = count_below(from, z, row.code, ws, k, v, &mut tallies);
    if free_pages(s, z, n, m) + 1 < m {
        return Err(store::Refusal::PagesFull);
    }
    let d = words::get32(s, 16);
    name_prefix(s, z, x, k, d as u32, 0);
    let i = at.slot;
    write_below(s, z, d as u32, Rows { from, i, row, ws }, k, v, at.page);
    write_split(s, k, tallies);
    settle_depth(s, z, n, d, z.deepest);
    Ok(store::Done::New)
}

// A split in a page of PAGE bytes, and with ROWS rows weighed at most.
fn split_in<'a, 's, const PAGE: usize, const ROWS: usize>(
    s: &'s mut [u8],
    z: Shape,
    at: Spot,
    row: NewRow<'a>,
) -> store::Answer
    requires { Crowded z fnv s.old at.page at.slot row.code.now row.place.now × (size z ≤ PAGE) × (z.capacity / 13 < ROWS) × (PAGE ≤ 16384) × (ROWS ≤ 1260) }
    ensures { Answers (put_accepted z fnv s.old (new_row row.entry.code.now row.entry.place.now)) (meaning result, s.new) }
{
    let mut from = [0; PAGE];
    let mut ws = [Weight { hash: 0, need: 0 }; ROWS];
    split(s, z, at, row, &mut from[..z.size()], &mut ws)
}

// A split with what it works in: of a page of 1,024 bytes and its rows where the pages are no longer, else of the largest size.
pub fn split_lent<'a, 's>(s: &'s mut [u8], z: Shape, at: Spot, row: NewRow<'a>) -> store::Answer
    requires { Crowded z fnv s.old at.page at.slot row.code.now row.place.now }
    ensures { Answers (put_accepted z fnv s.old (new_row row.entry.code.now row.entry.place.now)) (meaning result, s.new) }
{
    // A page of 1,024 bytes has at most 78 rows, one of 16,384 bytes at most 1,259, and here comes one more.
    if z.size() <= 1024 {
        split_in::<1024, 79>(s, z, at, row)
    } else {
        split_in::<16384, 1260>(s, z, at, row)
    }
}
