// Pass 1: pages 2 upward, each for its own bytes, its depth and the entries that name it.
ghost use Rattle.std.specs.Prelude.{◌≡◌, ◌≤◌, length, get_or};
ghost use Rattle.std.specs.Option.{unwrap_or};
ghost use Rattle.ground.specs.Says.{Says};
ghost use Rattle.words.specs.Zeros.{Zero};
ghost use Rattle.hash.specs.Fnv.{fnv};
ghost use Rattle.store.specs.Pages.{pages, page};
ghost use Rattle.store.specs.Accepted.{Stands};
ghost use Rattle.store_check.specs.First.{FirstFrom, FirstBad};
ghost use Rattle.store_check.specs.Begun.{Pass1, SkipAsked, FreeAndUnnamed, Own};
ghost use Rattle.store_check.specs.Digest.{Hashed};

use super::entry_runs::named;
use partition::Shape;

// The first page from p up to q that is named, or q.
// Stays: q is where skip_free's run of zeros ends, the first page that is not free: as much an answer as a page that is named.
fn first_named(counts: &[u32], p: usize, q: usize) -> usize
    requires { (p ≤ q) × (q ≤ length counts.now) }
    ensures { FirstFrom p q (λ k. get_or counts.now k 0 ≡ 0) result }
{
    for i in p..q {
        if counts[i] != 0 {
            return i;
        }
    }
    q
}

// The first page from p on that is not free or is named, or the number of pages. Free pages are passed over as one run of zeros, not page by page.
// Stays: a number is where first_unsound goes on, there or at the end; an option would be taken apart again at once, its none for that number.
fn skip_free(s: &[u8], z: Shape, counts: &[u32], p: usize) -> usize
    requires { SkipAsked z s.now counts.now p }
    ensures { FirstFrom p (pages z s.now) (λ k. FreeAndUnnamed (page z s.now k) counts.now k) result }
{
    let size = z.size();
    first_named(counts, p, words::zeros_end(s, p * size) / size)
}

// Whether a page is a bucket of depth at most d, but for its hashes. tab is as for page_check::page_ok.
fn own_ok(pg: &[u8], tab: &mut [u8], d: u32) -> bool
    requires { (length tab.old ≡ length pg.now) × Zero tab.old }
    ensures says { Says result (Own pg.now d) }
    ensures zero { Zero tab.new }
{
    page_check::page_ok(pg, tab) && u32::from(pg[1]) <= d
}

// The first page that does not stand, none where all do; and the first hash of each page before it. tab is as for page_check::page_ok.
// Stays: dir, counts and hashes side by side: one has as many numbers as the directory has entries, the others two more, for pages.
pub fn first_unsound(
    s: &[u8],
    z: Shape,
    dir: &[u32],
    counts: &[u32],
    n: usize,
    d: u32,
    tab: &mut [u8],
    hashes: &mut [u32],
) -> Option<usize>
    requires { Pass1 z s.now dir.now counts.now n d tab.old hashes.old }
    ensures first { FirstBad n (Stands z fnv s.now) result }
    ensures hashed { Hashed z s.now (unwrap_or result n) hashes.new }
{
    let mut p = 2;
    'pages: loop {
        if n <= p {
            break 'pages None;
        }
        let pg = store::page_at(s, z, p);
        if pg[0] == 0 {
            let q = skip_free(s, z, counts, p);
            if q <= p {
                break 'pages Some(p);
            }
            p = q;
            continue 'pages;
        }
        if !own_ok(pg, tab, d) {
            break 'pages Some(p);
        }
        let k = pg[1];
        let m = page_check::share_limit(k);
        let first = page_check::hash_slot(pg, 0);
        let count = words::get16(pg, 2);
        let near = page_check::near_where_long(pg, first, m);
        'slots: for i in near..count {
            if !page_check::differ_below(first, page_check::hash_in_place(pg, i), m) {
                break 'pages Some(p);
            }
        }
        if !named(dir, counts, d, k as u32, first, p as u32) {
            break 'pages Some(p);
        }
        hashes[p] = first;
        p += 1;
    }
}
