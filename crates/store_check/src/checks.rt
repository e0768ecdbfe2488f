// The check's passes, in document order.
ghost use Rattle.std.specs.Prelude.{◌≡◌, replicate};
ghost use Rattle.ground.specs.Says.{Says};
ghost use Rattle.hash.specs.Fnv.{fnv};
ghost use Rattle.partition.specs.Sizes.{shape_of};
ghost use Rattle.store.specs.Accepted.{GoodLength};
ghost use Rattle.store.specs.Counts.{Counts};
ghost use Rattle.store_check.specs.First.{Judged, JudgedBefore, JudgedFrom, CheckSays};
ghost use Rattle.store_check.specs.Begun.{AllStand, Checkable, Judgeable};

use super::entry_runs::{page1_ok, tally};
use super::head::page0_ok;
use super::pages::first_unsound;
use super::parted::first_joinable;
use partition::Shape;
use store::Refusal;

// The page at which the check stops by the rules before there were counts, page 0 zero from an offset on; none where these are kept.
// Its tables are as long as the store's size asks, so that a small store clears no table of a larger one.
fn judge<const ENTRIES: usize, const PAGES: usize, const SUMS: usize, const SIZE: usize>(
    s: &[u8],
    z: Shape,
    zeros: usize,
) -> Option<usize>
    requires { Checkable z s.now zeros (replicate ENTRIES 0) (replicate PAGES 0) (replicate PAGES 0) (replicate SUMS 0) (replicate SIZE 0) }
    ensures { JudgedFrom zeros z fnv s.now result }
{
    let mut dir = [0u32; ENTRIES];
    let mut counts = [0u32; PAGES];
    let mut hashes = [0u32; PAGES];
    let mut sums = [0u32; SUMS];
    let mut tab = [0u8; SIZE];
    let n = s.len() / (8 + z.capacity);
    if !page0_ok(s, z, n, zeros) {
        return Some(0);
    }
    let d = words::get32(s, 16) as u32;
    let m = partition::two_to(d);
    if !page1_ok(s, z, n, m, &mut dir) {
        return Some(1);
    }
    tally(&dir, m, &mut counts);
    if let Some(p) = first_unsound(s, z, &dir, &counts, n, d, &mut tab, &mut hashes) {
        return Some(p);
    }
    // no bucket is divided, and none deeper than the directory
    if d == 0 {
        return None;
    }
    if let Some(p) = first_joinable(s, z, n, &hashes, &mut sums) {
        return Some(p);
    }
    if store::deepest(s, z, n) != d as usize {
        return Some(0);
    }
    None
}

// The page at which the check stops by the rules before there were counts; none where they are kept.
// Stays: here and below s and its size z are two, with a requires of both: docs/PROMISES.md names first_bad and first_bad_before, whose parameters these are.
fn judge_sized(s: &[u8], z: Shape, zeros: usize) -> Option<usize>
    requires { (z ≡ shape_of s.now) × Judgeable z s.now zeros }
    ensures { JudgedFrom zeros z fnv s.now result }
{
    match z.deepest {
        8 => judge::<256, 258, 257, 1024>(s, z, zeros),
        10 => judge::<1024, 1026, 1025, 4096>(s, z, zeros),
        _ => judge::<4096, 4098, 4097, 16384>(s, z, zeros),
    }
}

// Whether the counts in page 0 are those of the n pages.
fn counts_ok(s: &[u8], z: Shape, n: usize) -> bool
    requires { AllStand z s.now n }
    ensures { Says result (Counts z s.now) }
{
    counts::are_counts(s, &counts::tally(s, z, n))
}

// The page at which the check of a store stops; none where every rule is kept. The counts are judged last of all.
pub fn first_bad(s: &[u8], z: Shape) -> Option<usize>
    requires { (z ≡ shape_of s.now) × GoodLength z s.now }
    ensures { Judged z fnv s.now result }
{
    let n = s.len() / z.size();
    if let Some(p) = judge_sized(s, z, 80) {
        return Some(p);
    }
    if !counts_ok(s, z, n) {
        return Some(0);
    }
    None
}

// The page at which a store breaks the old rules; none where it keeps them.
pub fn first_bad_before(s: &[u8], z: Shape) -> Option<usize>
    requires { (z ≡ shape_of s.now) × GoodLength z s.now }
    ensures { JudgedBefore z fnv s.now result }
{
    judge_sized(s, z, 24)
}

// Lets a store pass that keeps every rule; refused with the page at which the check stops.
pub fn accept(s: &[u8], z: Shape) -> Result<(), Refusal>
    requires { (z ≡ shape_of s.now) × GoodLength z s.now }
    ensures { CheckSays z fnv s.now result }
{
    match first_bad(s, z) {
        Some(p) => Err(Refusal::BadPage(p)),
        None => Ok(()),
    }
}
