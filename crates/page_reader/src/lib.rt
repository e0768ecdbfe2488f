// A page reader: it borrows one bucket page and hands out row after row. Inspection is built on it.
#![tactic(auto)]

ghost use Rattle.std.specs.Prelude.{◌≡◌, ◌+◌, ◌-◌, ◌≤◌, ◌<◌, min, length};
ghost use Rattle.ground.specs.Ladder.{Answers};
ghost use Rattle.hash.specs.Fnv.{fnv};
ghost use Rattle.page.specs.Page as Page;
ghost use Rattle.page.specs.Places as Places;
ghost use Rattle.partition.specs.Sizes.{shape_for};
ghost use Rattle.store.specs.Tables.{meaning, inspect_table};
ghost use Rattle.page_reader.specs.Read.{Reads, Readable, Readable-prop, nth_table};

use page::Place;
use store::{Answer, Done, Refusal};

mod sound;

// A page as it is read, and the slot of the next row.
#[derive(Clone, Copy)]
pub struct Reader<'a> {
    pub page: &'a [u8],
    pub slot: usize,
    pub ghost readable: { Readable page.now } by { Readable-prop page.now },
}

impl<'a> Reader<'a> {
    // A reader of a page, at its first row; of a page that is free or breaks a rule it reads nothing.
    pub fn open(page: &'a [u8]) -> Self
        ensures { Reads page.now result.page.now × (result.slot ≡ 0) }
    {
        Reader {
            page: sound::sound_part(page),
            slot: 0,
        }
    }

    // How many rows are left.
    pub fn left(self) -> usize
        ensures { result ≡ Page.count self.entry.page.now - self.entry.slot }
    {
        if self.page.is_empty() {
            return 0;
        }
        words::get16(self.page, 2).saturating_sub(self.slot)
    }

    // The row's code, as a part of the page.
    // Stays: a reader may stand at the page's end, where no row is, so who asks for one shows that it is there.
    pub fn code(self) -> &'a [u8]
        requires { self.slot < Page.count self.page.now }
        ensures { result.now ≡ Page.code self.entry.page.now self.entry.slot }
    {
        page::code_at(self.page, self.slot)
    }

    // The row's place.
    pub fn place(self) -> Place
        requires { self.slot < Page.count self.page.now }
        ensures { result ≡ Places.place_from (Page.place self.entry.page.now self.entry.slot) }
    {
        page::read_place(self.page, self.slot)
    }

    // The reader at the next row.
    pub fn next(self) -> Self
        requires { self.slot < Page.count self.page.now }
        ensures { (result.page ≡ self.entry.page) × (result.slot ≡ self.entry.slot + 1) }
    {
        Reader {
            page: self.page,
            slot: self.slot + 1,
        }
    }

    // The reader n rows on, or at the end where fewer are left.
    pub fn skip(self, n: usize) -> Self
        ensures { (result.page ≡ self.entry.page) × (result.slot ≡ self.entry.slot + min (Page.count self.entry.page.now - self.entry.slot) n) }
    {
        let mut reader = self;
        for _ in 0..self.left().min(n) {
            reader = reader.next();
        }
        reader
    }

    // The row, its code to the start of out.
    pub fn give(self, out: &mut [u8]) -> Answer
        requires { 64 ≤ length out.old }
        ensures { Answers (nth_table self.entry.page.now self.entry.slot out.old) (meaning result, out.new) }
    {
        if self.page.is_empty() {
            return Err(Refusal::BadPage(0));
        }
        if self.left() == 0 {
            return Err(Refusal::NoRow);
        }
        let len = page::read_code(self.page, self.slot, out);
        Ok(Done::RowOf(len, self.place()))
    }
}

// Row n of a page, with plain parameters: the reader goes there row after row.
pub fn nth(page: &[u8], n: usize, out: &mut [u8]) -> Answer
    requires { 64 ≤ length out.old }
    ensures { Answers (nth_table page.now n out.old) (meaning result, out.new) }
{
    Reader::open(page).skip(n).give(out)
}

// Inspection of one page, of any of the three lengths, with its depth.
pub fn inspect(page: &[u8], n: usize, out: &mut [u8]) -> Answer
    ensures { Answers (inspect_table (shape_for (length page.now)) fnv page.now n out.old) (meaning result, out.new) }
{
    let z = partition::shape_for(page.len());
    if page.len() != z.size() {
        return Err(Refusal::BadLength);
    }
    if out.len() < 64 {
        return Err(Refusal::ShortOutput);
    }
    if words::all_zero(page) {
        return Err(Refusal::NoRow);
    }
    nth(page, n, out)
}
