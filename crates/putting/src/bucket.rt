// A bucket written packed, from the rows of a page and a new row.
ghost use Rattle.std.specs.Prelude.{[], ◌∷◌};
ghost use Rattle.hash.specs.Fnv.{fnv};
ghost use Rattle.page.specs.Page.{row_at};
ghost use Rattle.partition.specs.Partition.{rows_of};
ghost use Rattle.store.specs.Pages.{as_row};
ghost use Rattle.putting.specs.Put.{new_row};
ghost use Rattle.putting.specs.Split.{slots, with_new, Appendable, AppendableIf, SlotAppendable, SlotsAppendable, Appended, Bucketable, Bucketed};

use super::weigh::Weight;

// A row to put, as it is stored.
#[derive(Clone, Copy)]
pub struct NewRow<'a> {
    pub code: &'a [u8],
    pub place: &'a [u8],
}

// The row goes behind those of a packed page.
fn append<'a, 'p>(page: &'p mut [u8], row: NewRow<'a>)
    requires { Appendable page.old row.code.now row.place.now }
    ensures { Appended page.old (new_row row.entry.code.now row.entry.place.now ∷ []) page.new }
{
    let n = words::get16(page, 2);
    page::insert_at_frontier(page, n, row.code, row.place);
}

// The row goes behind those of a packed page, if its hash x begins with the k bits of v.
fn append_if<'a, 'p>(page: &'p mut [u8], row: NewRow<'a>, x: u32, k: u32, v: u64)
    requires { AppendableIf fnv page.old row.code.now row.place.now x k v }
    ensures { Appended page.old (rows_of fnv (new_row row.entry.code.now row.entry.place.now ∷ []) k v) page.new }
{
    if partition::top_bits(x, k) == v {
        append(page, row);
    }
}

// Slot i's row goes behind those of a packed page, if its hash x begins with the k bits of v.
fn append_slot(page: &mut [u8], from: &[u8], i: usize, x: u32, k: u32, v: u64)
    requires { SlotAppendable fnv page.old from.now i x k v }
    ensures { Appended page.old (rows_of fnv (as_row (row_at from.now i) ∷ []) k v) page.new }
{
    if partition::top_bits(x, k) == v {
        let code = page::code_at(from, i);
        let place = page::place_at(from, i);
        append(page, NewRow { code, place });
    }
}

// Of the slots from a up to b, the rows whose hashes, in ws, begin with the k bits of v go behind those of a packed page.
fn append_slots(page: &mut [u8], from: &[u8], ws: &[Weight], a: usize, b: usize, k: u32, v: u64)
    requires { SlotsAppendable fnv page.old from.now ws.now a b k v }
    ensures { Appended page.old (rows_of fnv (slots from.now a b) k v) page.new }
{
    for i in a..b {
        append_slot(page, from, i, ws[i].hash, k, v);
    }
}

// What is split: the rows of the page from, and a new row, whose code belongs at slot i; ws has their hashes and needs.
#[derive(Clone, Copy)]
pub struct Rows<'a> {
    pub from: &'a [u8],
    pub i: usize,
    pub row: NewRow<'a>,
    pub ws: &'a [Weight],
}

// Those of the rows whose hashes begin with the k bits of v.
pub fn write_bucket<'a, 'p>(page: &'p mut [u8], rows: Rows<'a>, k: u32, v: u64)
    requires { Bucketable fnv rows.from.now rows.i rows.row.code.now rows.row.place.now rows.ws.now k v page.old }
    ensures { Bucketed fnv (with_new rows.entry.from.now (new_row rows.entry.row.code.now rows.entry.row.place.now)) k v page.old page.new }
{
    let n = words::get16(rows.from, 2);
    page::new_page(page, k as u8);
    append_slots(page, rows.from, rows.ws, 0, rows.i, k, v);
    append_if(page, rows.row, rows.ws[n].hash, k, v);
    append_slots(page, rows.from, rows.ws, rows.i, n, k, v);
}
