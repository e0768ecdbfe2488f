// Pass 2: of a bucket of depth over 0 the rows of the prefix one bit shorter do not fit.
ghost use Rattle.std.specs.Prelude.{◌<◌, length, get_or};
ghost use Rattle.ground.specs.Lists.{total};
ghost use Rattle.ground.specs.Says.{Says};
ghost use Rattle.hash.specs.Fnv.{fnv};
ghost use Rattle.words.specs.Moves.{Span};
ghost use Rattle.store.specs.Accepted.{Parted};
ghost use Rattle.store_check.specs.First.{FirstBad};
ghost use Rattle.store_check.specs.Digest.{Legible, LoadOf, Celled, Pass2, Digested};

use partition::Shape;
use std::mem;

// What a page's rows need.
fn page_load(pg: &[u8]) -> u32
    requires { Legible pg.now }
    ensures { LoadOf pg.now result }
{
    if pg[0] == 0 {
        return 0;
    }
    (pg.len() - 8 - words::get16(pg, 6)) as u32
}

// What the pages need together, for each number of the first bits of their first hash.
// Stays: hashes are by the page and cells by the first bits, here and below, so that they are two arrays of two lengths.
fn digest(s: &[u8], z: Shape, n: usize, hashes: &[u32], cells: &mut [u32])
    requires { Pass2 z s.now n hashes.now cells.old }
    ensures { Celled z s.now n cells.new }
{
    for p in 2..n {
        let t = partition::top_bits(hashes[p], z.deepest as u32) as usize;
        cells[t] += page_load(store::page_at(s, z, p));
    }
}

// In the place of each cell the sum of those before it.
fn add_up(cells: &mut [u32])
    requires { total (λ j. get_or cells.old j 0) (length cells.old) < 4294967296 }
    ensures { Span cells.old 0 (length cells.old) (λ i. total (λ j. get_or cells.old j 0) i) cells.new }
{
    let mut sum = 0;
    for cell in cells.iter_mut() {
        sum += mem::replace(cell, sum);
    }
}

// Whether page p keeps pass 2's rule: a prefix's run of cells needs what its rows need.
// Stays: hashes and sums are of two lengths, as in digest.
fn parted_ok(s: &[u8], z: Shape, hashes: &[u32], sums: &[u32], p: usize) -> bool
    requires { Digested z s.now hashes.now sums.now p }
    ensures { Says result (Parted z fnv s.now p) }
{
    let d = s[p * z.size() + 1] as u32;
    if d == 0 {
        return true;
    }
    let run = partition::run_of(hashes[p], d - 1, z.deepest as u32);
    z.capacity < (sums[run.to] - sums[run.from]) as usize
}

// The first page that does not keep it; none where all do.
// Stays: hashes and sums are of two lengths, as in digest.
pub fn first_joinable(
    s: &[u8],
    z: Shape,
    n: usize,
    hashes: &[u32],
    sums: &mut [u32],
) -> Option<usize>
    requires { Pass2 z s.now n hashes.now sums.old }
    ensures { FirstBad n (Parted z fnv s.now) result }
{
    digest(s, z, n, hashes, sums);
    add_up(sums);
    (2..n).find(|p| !parted_ok(s, z, hashes, sums, *p))
}
