// The calls that read a store: check, count, lookup, row at place n.
#![tactic(auto)]

ghost use Rattle.ground.specs.Ladder.{Answers};
ghost use Rattle.std.specs.Prelude.{◌≤◌, length, ◌≡◌};
ghost use Rattle.hash.specs.Fnv.{fnv};
ghost use Rattle.words.specs.Folds.{fold};
ghost use Rattle.partition.specs.Listing.{listing};
ghost use Rattle.partition.specs.Sizes.{shape_of};
ghost use Rattle.page.specs.Page.{row_at};
ghost use Rattle.store.specs.Pages.{page, as_row, rows_held};
ghost use Rattle.store.specs.Accepted.{Accepted};
ghost use Rattle.store.specs.Demands.{Sized};
ghost use Rattle.store.specs.Tables.{check_table, count_table, looked_up, lookup_table, row_of, row_table, giving, meaning};
ghost use Rattle.query.specs.Asked.{GivenAsked, RowSought};
ghost use Rattle.query.specs.Spots.{OnPage};

use partition::Shape;
use store::{Answer, Done, Refusal};

mod spots;

pub use spots::{cursor_at, entries_of, entry_of, find_row, next_row};

// Where a row stands: its page and slot.
#[derive(Clone, Copy)]
pub struct Spot {
    pub page: usize,
    pub slot: usize,
}

// A place in the listing: a slot of the rows from a directory entry on.
#[derive(Clone, Copy)]
pub struct Cursor {
    pub entry: usize,
    pub slot: usize,
}

// Whether the store keeps every rule, and the first page that does not.
pub fn check(s: &[u8]) -> Answer
    ensures { Answers (check_table (shape_of s.now) fnv s.now) (meaning result) }
{
    let z = store_check::said_shape(s)?;
    store_check::accept(s, z)?;
    Ok(Done::Accepted)
}

// The number of rows: page 0 has it.
pub fn count(s: &[u8]) -> Answer
    ensures { Answers (count_table (shape_of s.now) fnv s.now) (meaning result) }
{
    let z = store_check::said_shape(s)?;
    store_check::accept(s, z)?;
    Ok(Done::Rows(counts::rows_counted(s)))
}

// The place of a code as it is stored, on an accepted store.
pub fn place_of(s: &[u8], z: Shape, key: &[u8]) -> Answer
    requires { Sized z × Accepted z fnv s.now }
    ensures { Answers (looked_up z s.now key.now) (meaning result) }
{
    let spot = find_row(s, z, key, hash::hash(key)).ok_or(Refusal::NoCode)?;
    Ok(Done::Found(page::read_place(store::page_at(s, z, spot.page), spot.slot)))
}

// The place of a given code, on an accepted store.
pub fn place_given(s: &[u8], z: Shape, key: &[u8]) -> Answer
    requires { GivenAsked z fnv s.now key.now }
    ensures { Answers (looked_up z s.now (fold key.now)) (meaning result) }
{
    let n = key.len();
    let mut low = [0u8; 64];
    words::fold_code(&mut low, key);
    place_of(s, z, &low[0..n])
}

// The place of a code.
pub fn lookup(s: &[u8], key: &[u8]) -> Answer
    ensures { Answers (lookup_table (shape_of s.now) fnv s.now key.now) (meaning result) }
{
    let z = store_check::said_shape(s)?;
    if !store::good_code(key) {
        return Err(Refusal::BadCode);
    }
    store_check::accept(s, z)?;
    place_given(s, z, key)
}

// The row in slot i of the bucket page p, its code to the start of the output.
pub fn read_row(s: &[u8], z: Shape, p: usize, i: usize, out: &mut [u8]) -> Answer
    requires { OnPage z s.now p i × (64 ≤ length out.old) }
    ensures { (meaning result, out.new) ≡ giving (as_row (row_at (page z s.now p) i)) out.old }
{
    let bucket = store::page_at(s, z, p);
    let len = page::read_code(bucket, i, out);
    Ok(Done::RowOf(len, page::read_place(bucket, i)))
}

// The row at place n of the listing, its code to the start of the output, on an accepted store.
pub fn give_row(s: &[u8], z: Shape, n: usize, out: &mut [u8]) -> Answer
    requires { RowSought z fnv s.now out.old }
    ensures { Answers (row_of (listing z fnv (rows_held z s.now)) n out.old) (meaning result, out.new) }
{
    let spot = spots::nth_row(s, z, n).ok_or(Refusal::NoRow)?;
    read_row(s, z, spot.page, spot.slot, out)
}

// The row at place n of the listing, its code to the start of the output.
pub fn row_at(s: &[u8], n: usize, out: &mut [u8]) -> Answer
    ensures { Answers (row_table (shape_of s.now) fnv s.now n out.old) (meaning result, out.new) }
{
    let z = store_check::said_shape(s)?;
    if out.len() < 64 {
        return Err(Refusal::ShortOutput);
    }
    store_check::accept(s, z)?;
    give_row(s, z, n, out)
}
