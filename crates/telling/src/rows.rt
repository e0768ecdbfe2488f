// The rows of the listing as lines on standard output.
ghost use Rattle.std.specs.Prelude.{◌≤◌, length, ◌≡◌};
ghost use Rattle.hash.specs.Fnv.{fnv};
ghost use Rattle.partition.specs.Listing.{listing};
ghost use Rattle.store.specs.Pages.{page, rows_held};
ghost use Rattle.query.specs.Spots.{OnPage};
ghost use Rattle.telling.specs.Told.{AllTold, Listable};
ghost use Rattle.telling.specs.Rows.{Fillable, Filling, LinesFrom, RunFrom, RunTo};

use super::say;
use crate::Lined;
use partition::Shape;
use query::Cursor;

// Where a line may still begin in 4,096 bytes: the longest has 320.
const LAST: usize = 3776;

// The rows of a bucket page from slot i on as lines at the start of the buffer: as many as it has room for.
fn page_lines(page: &[u8], i: usize, out: &mut [u8]) -> Lined
    requires { Fillable page.now i out.old }
    ensures { Filling page.now i out.old out.new result }
{
    let n = words::get16(page, 2);
    let mut len = 0;
    for slot in i..n {
        if len > LAST {
            return Lined { slot, len };
        }
        let code = page::code_at(page, slot);
        let place = page::read_place(page, slot);
        len = commands::row_line(out, len, code, place);
    }
    Lined { slot: n, len }
}

// The rows of the bucket page p of a store from slot i on as lines: as many as the buffer has room for.
fn bucket_lines(s: &[u8], z: Shape, p: usize, i: usize, out: &mut [u8]) -> Lined
    requires { OnPage z s.now p i × (4096 ≤ length out.old) }
    ensures { Filling (page z s.now p) i out.old out.new result }
{
    page_lines(store::page_at(s, z, p), i, out)
}

// k rows from place n of the listing on: their lines are written, and nothing else. Whether they could be.
// Stays: store and shape are two parameters in the public functions below too (store::page_at), and n is a place here and a count in list_rows.
fn write_rows<R: Print + Eprint>(
    rt: &R,
    s: &[u8],
    z: Shape,
    n: usize,
    k: usize,
    lines: &[u8],
) -> bool
    requires { LinesFrom z s.now n k lines.now }
{
    say::text(rt, lines)
}

// The rows from place n of the listing on, which stand from slot i of the page p on: as many as the buffer has room for, in one write. The slot behind them; none where they could not be written.
fn list_run<R: Print + Eprint>(
    rt: &R,
    s: &[u8],
    z: Shape,
    n: usize,
    p: usize,
    i: usize,
    lines: &mut [u8],
) -> Option<usize>
    requires { RunFrom z s.now n p i lines.old }
    ensures { RunTo (page z s.now p) i lines.old lines.new result }
{
    let f = bucket_lines(s, z, p, i, lines);
    write_rows(rt, s, z, n, f.slot - i, &lines[..f.len]).then_some(f.slot)
}

// The cursor at another slot of its entry's rows.
fn further(c: Cursor, slot: usize) -> Cursor
    ensures { (result.entry ≡ c.entry) × (result.slot ≡ slot) }
{
    Cursor { slot, ..c }
}

// Every row of an accepted store in one walk, and how many they are; none where some could not be written. The rows of a page are written at once.
pub fn list_rows<R: Print + Eprint>(
    rt: &R,
    s: &[u8],
    z: Shape,
    n: usize,
    lines: &mut [u8],
) -> Option<usize>
    requires { Listable z s.now n × (4096 ≤ length lines.old) }
    ensures { AllTold (length (listing z fnv (rows_held z s.now))) result }
{
    let mut c = query::cursor_at(s, z, 0);
    let mut i = 0;
    // Stays: it goes on by as many rows as a page gives at once, which no range does.
    while i < n {
        let Some((spot, next)) = query::next_row(s, z, c) else {
            return Some(i);
        };
        let to = list_run(rt, s, z, i, spot.page, spot.slot, lines)?;
        i += to - spot.slot;
        c = further(next, to);
    }
    Some(i)
}
