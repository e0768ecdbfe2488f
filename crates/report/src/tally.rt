// The tally of a store's listing over a sheet's numbers.
ghost use Rattle.std.specs.Prelude.{◌≡◌, ℕ, ◌<◌, ◌≤◌, length, get_or};
ghost use Rattle.ground.specs.Says.{Says};
ghost use Rattle.hash.specs.Fnv.{fnv};
ghost use Rattle.partition.specs.Listing.{listing};
ghost use Rattle.store.specs.Pages.{rows_held};
ghost use Rattle.query.specs.Cursors.{At, Steppable};
ghost use Rattle.report.specs.Numbers.{RisingNumbers, AtMost, Sound, Finds, mark_at, SheetReady, Follows, RoomFor, OneMore, Ends, sum_of};

use super::rows::rank_of;
use crate::Counted;
use page::Place;
use partition::Shape;
use query::Cursor;

// The sheet as numbers: the ranks of its rows and, beside each, its raised amount.
#[derive(Clone, Copy)]
pub struct Numbers<'a> {
    pub ranks: &'a [u64],
    pub raised: &'a [u64],
}

// Stays: tried as ranks.is_sorted_by, ranks.last and raised.iter().all; a report had 41.1 instructions a sheet row then, of at most 40.
// The sheet's rules over its numbers. `last` is the rank before, and the greatest so far, so only the very last is held to the places' bound.
pub fn sound(ranks: &[u64], raised: &[u64]) -> bool
    requires { length raised.now ≡ length ranks.now }
    ensures { Says result (Sound ranks.now raised.now) }
{
    if ranks.len() == 0 {
        return true;
    }
    if 2000000000000 < raised[0] {
        return false;
    }
    let mut last = ranks[0];
    let mut i = 1;
    while i < ranks.len() {
        let p = ranks[i];
        if p <= last {
            return false;
        }
        if 2000000000000 < raised[i] {
            return false;
        }
        last = p;
        i = i + 1;
    }
    if 9223372036854775808 <= last {
        return false;
    }
    true
}

// The row with that rank.
fn find(ranks: &[u64], w: u64) -> Option<usize>
    requires { RisingNumbers ranks.now }
    ensures { Finds w ranks.now result }
{
    ranks.binary_search(&w).ok()
}

// One code more under row i: none, one, many. The mark before.
// Stays: min would change a mark above 2, which specs/Numbers:mark_at leaves.
fn mark(counts: &mut [u8], i: usize) -> u8
    requires { i < length counts.old }
    ensures { (result ≡ get_or counts.old i 0) × (counts.new ≡ mark_at counts.old i) }
{
    let c = counts[i];
    if c < 2 {
        counts[i] = c + 1;
    }
    c
}

impl Counted {
    // One code more, of a row with the amount l and the mark m before: the first code of a row names it, the second doubles it.
    fn count_one(self, l: u64, m: u8) -> Counted
        requires { RoomFor self l }
        ensures { OneMore self l m result }
    {
        let mut more = self;
        more.codes += 1;
        more.sum += l;
        if m == 0 {
            more.named += 1;
            more.once += l;
        }
        if m == 1 {
            more.doubled += 1;
        }
        more
    }
}

// The place of the next row of the listing, from any place before which the cursor stands.
fn next_place(s: &[u8], z: Shape, c: Cursor) -> Option<(Place, Cursor)>
    requires { Steppable z s.now c }
    ensures { (n : ℕ) → At z s.now n c → Follows z s.now n result }
{
    let (spot, next) = query::next_row(s, z, c)?;
    let place = page::read_place(store::page_at(s, z, spot.page), spot.slot);
    Some((place, next))
}

// Stays: the loop is on next_place, the listing's steps with a cursor; a chain would need an iterator type with laws of its own for this one loop.
// Each row of the listing once: its place found in the sheet, its sheet row marked and counted.
pub fn tally<'a>(
    s: &[u8],
    z: Shape,
    sheet: Numbers<'a>,
    counts: &mut [u8],
) -> Result<Counted, Place>
    requires { SheetReady z s.now sheet.ranks.now sheet.raised.now × (length counts.old ≡ length sheet.ranks.now) }
    ensures { Ends sheet.entry.ranks.now sheet.entry.raised.now (listing z fnv (rows_held z s.now)) counts.old result counts.new }
{
    let mut c = query::cursor_at(s, z, 0);
    let mut t = Counted {
        codes: 0,
        sum: 0,
        named: 0,
        once: 0,
        doubled: 0,
    };
    while let Some((place, next)) = next_place(s, z, c) {
        let Some(i) = find(sheet.ranks, rank_of(place)) else {
            return Err(place);
        };
        let m = mark(counts, i);
        t = t.count_one(sheet.raised[i], m);
        c = next;
    }
    Ok(t)
}

// The sum of all amounts.
pub fn add_up(raised: &[u64]) -> u64
    requires { AtMost 2000000000000 raised.now × (length raised.now ≤ 4000000) }
    ensures { result ≡ sum_of raised.now }
{
    raised.iter().sum()
}
