// Depth and directory, written from the pages. Over any page shape.
ghost use Rattle.hash.specs.Fnv.{fnv};
ghost use Rattle.partition.specs.Bits.{top};
ghost use Rattle.store.specs.Pages.{contents, deepest_in};
ghost use Rattle.store.specs.Demands.{Sized};
ghost use Rattle.directory.specs.Directory.{RunSet, Runnable, Namable, PrefixNamed, PageNamed, PageOf, Directable, Directed, Settling, SettleDue, Recounted};

use partition::Shape;
use std::ops::Range;

// The entries of a run name page p.
// Stays: Sized, here and below; a Shape is public, of any three numbers, and what asks less of it (free_pages, lowest_free) would then ask more.
fn set_run(s: &mut [u8], z: Shape, run: Range<usize>, p: usize)
    requires { Sized z × Runnable z s.old run.start run.end p }
    ensures { RunSet z s.old run.start run.end p s.new }
{
    for i in run {
        words::put32(s, z.size() + 4 * i, p);
    }
}

// The entries that the first k bits of the hash x call for name page p, or none where p is 0.
pub fn name_prefix(s: &mut [u8], z: Shape, x: u32, k: u32, d: u32, p: usize)
    requires { Sized z × Namable z s.old d k p }
    ensures { PrefixNamed z s.old d k (top k x) p s.new }
{
    set_run(s, z, partition::run_of(x, k, d).entries(), p);
}

// The entries that page p calls for name it.
fn name_page(s: &mut [u8], z: Shape, p: usize, d: u32)
    requires { Sized z × PageOf z s.old d p }
    ensures { PageNamed z fnv s.old d p s.new }
{
    let bucket = store::page_at(s, z, p);
    if bucket[0] == 1 {
        let k = bucket[1] as u32;
        let x = page_check::hash_slot(bucket, 0);
        name_prefix(s, z, x, k, d, p);
    }
}

// Depth d, and the directory of the n pages.
// Stays: s, z and n, here and below; the store is lent anew to each step, and docs/PROMISES.md names settle_depth.
fn write_directory(s: &mut [u8], z: Shape, n: usize, d: u32)
    requires { Sized z × Directable z s.old n d }
    ensures { Directed z fnv s.old d n s.new }
{
    words::put32(s, 16, d as usize);
    let size = z.size();
    words::clear(s, size, 2 * size);
    for p in 2..n {
        name_page(s, z, p, d);
    }
}

// The counts in page 0 are then those of the n pages.
pub fn recount(s: &mut [u8], z: Shape, n: usize)
    requires { Sized z × Settling z s.old n }
    ensures { Recounted z s.old s.new }
{
    let tallies = counts::tally(s, z, n);
    counts::write_counts(s, &tallies);
}

// Directory and depth are then as defined, those of the pages, where the directory is known to be if its depth d is. The depth, at most most, comes from the counts in page 0.
pub fn settle_depth(s: &mut [u8], z: Shape, n: usize, d: usize, most: usize)
    requires { SettleDue z fnv s.old n d most }
    ensures { Directed z fnv s.old (deepest_in (contents z s.old)) n s.new }
{
    let e = counts::deepest_counted(s, most);
    if e != d {
        write_directory(s, z, n, e as u32);
    }
}
