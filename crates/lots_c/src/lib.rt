// The calls of include/lots.h, which lots_c_c exports to C: each call checks for itself, and its word is the meaning of its answer.
#![tactic(auto)]

ghost use Rattle.std.specs.Prelude.{◌≡◌, ◌<◌, length};
ghost use Rattle.hash.specs.Fnv.{fnv};
ghost use Rattle.page.specs.declared.Place.{Place};
ghost use Rattle.partition.specs.Sizes.{shape_for, shape_of};
ghost use Rattle.store.specs.Tables.{format_sized, check_table, count_table, lookup_table, put_table, remove_table, row_table, inspect_table, meaning};
ghost use Rattle.batch.specs.Batch.{runs, batch_table};
ghost use Rattle.filling.specs.Filling.{fill_table};
ghost use Rattle.report.specs.Report.{reported, report_table};
ghost use Rattle.lots_c.specs.Words.{plain, place_word, refusal_word, answer_word, length_after, Tells, TellsAnd, TellsAll, TellsRow, no_sums, report_words, TellsReport};

use page::Place;
use report::{ReportRefusal, SheetRow, Sums};
use store::{Answer, Done, Numbers};

// The word of a place, of which no part is negative.
fn place_word(p: Place) -> u64
    ensures { result ≡ place_word p }
{
    let page = p.page.max(0) as u64;
    let slot = p.slot.max(0) as u64;
    let volume = p.volume.max(0) as u64;
    page + 4294967296 * slot + 281474976710656 * volume
}

fn refusal_word(n: Numbers) -> u64
    ensures { result ≡ refusal_word n.number n.page }
{
    9223372036854775808 + n.number as u64 + 256 * (n.page as u64 % 4294967296)
}

// The word of an answer.
fn word_of(a: Answer) -> u64
    ensures { result ≡ answer_word (meaning a) }
{
    match a {
        Err(r) => refusal_word(store::numbers_of(r)),
        Ok(Done::Formatted | Done::Accepted) => 0,
        Ok(Done::New) => 2147483648,
        Ok(Done::Replaced(p) | Done::Found(p) | Done::RowOf(_, p)) => place_word(p),
        Ok(Done::Rows(n)) => n as u64,
    }
}

// The same, a place first: most lookups and removes answer one. Small, so that it becomes part of the call.
fn found_word(a: Answer) -> u64
    ensures { result ≡ answer_word (meaning a) }
{
    let Ok(Done::Found(p)) = a else {
        return word_of(a);
    };
    place_word(p)
}

// The same, a new row first: most puts answer one.
fn new_word(a: Answer) -> u64
    ensures { result ≡ answer_word (meaning a) }
{
    let Ok(Done::New) = a else {
        return word_of(a);
    };
    2147483648
}

// The length of the code that was given; only a row writes it.
fn give_length(a: Answer, len: &mut u32)
    ensures { len.new ≡ length_after (meaning a) len.old }
{
    if let Ok(Done::RowOf(n, _)) = a {
        *len = (n % 4294967296) as u32;
    }
}

// The bid report's answer: 0 or a refusal, the place of refusal 11, and the sums.
#[repr(C)]
#[derive(Clone, Copy)]
pub struct ReportAnswer {
    pub answer: u64,
    pub place: u64,
    pub total: i64,
    pub hidden: u64,
    pub cents: i64,
    pub doubled: u64,
}

// A report's answer that has no sums.
fn unsummed(answer: u64, place: u64) -> ReportAnswer
    ensures { result ≡ no_sums answer place }
{
    ReportAnswer {
        answer: answer,
        place: place,
        total: 0,
        hidden: 0,
        cents: 0,
        doubled: 0,
    }
}

// The words of a report.
pub fn report_of(o: Result<Sums, ReportRefusal>) -> ReportAnswer
    ensures { result ≡ report_words (reported o) }
{
    match o {
        Err(ReportRefusal::Store(r)) => unsummed(refusal_word(store::numbers_of(r)), 0),
        Err(ReportRefusal::BadSheet) => unsummed(9223372036854775818, 0),
        Err(ReportRefusal::NotInSheet(p)) => unsummed(9223372036854775819, place_word(p)),
        Ok(x) => ReportAnswer {
            answer: 0,
            place: 0,
            total: x.total,
            hidden: x.hidden as u64,
            cents: x.cents,
            doubled: x.doubled as u64,
        },
    }
}

pub fn lots_format(store: &mut [u8], page_size: u64) -> u64
    ensures { TellsAnd (format_sized page_size store.old) store.new result }
{
    word_of(directory::format(store, page_size as usize))
}

pub fn lots_check(store: &[u8]) -> u64
    ensures { Tells (check_table (shape_of store.now) fnv store.now) result }
{
    word_of(query::check(store))
}

pub fn lots_count(store: &[u8]) -> u64
    ensures { Tells (count_table (shape_of store.now) fnv store.now) result }
{
    word_of(query::count(store))
}

pub fn lots_lookup(store: &[u8], code: &[u8]) -> u64
    ensures { Tells (lookup_table (shape_of store.now) fnv store.now code.now) result }
{
    found_word(query::lookup(store, code))
}

pub fn lots_row(store: &[u8], n: u64, out: &mut [u8], code_len: &mut u32) -> u64
    ensures { TellsRow (row_table (shape_of store.now) fnv store.now n out.old)
        out.new code_len.old code_len.new result }
{
    let a = query::row_at(store, n as usize, out);
    give_length(a, code_len);
    word_of(a)
}

pub fn lots_inspect(page: &[u8], n: u64, out: &mut [u8], code_len: &mut u32) -> u64
    ensures { TellsRow (inspect_table (shape_for (length page.now)) fnv page.now n out.old)
        out.new code_len.old code_len.new result }
{
    let a = page_reader::inspect(page, n as usize, out);
    give_length(a, code_len);
    word_of(a)
}

pub fn lots_remove(store: &mut [u8], code: &[u8]) -> u64
    ensures { TellsAnd (remove_table (shape_of store.old) fnv store.old code.now) store.new result }
{
    found_word(removal::remove(store, code))
}

// Stays: the C header has the mode as a number.
pub fn lots_put(store: &mut [u8], code: &[u8], page: i32, slot: i16, volume: i16, mode: u64) -> u64
    ensures { TellsAnd (put_table (shape_of store.old) fnv store.old code.now
        (record { page = page; slot = slot; volume = volume }) mode) store.new result }
{
    let place = Place { page, slot, volume };
    new_word(putting::put(store, code, place, mode))
}

// Stays: the C header has the runs side by side and the mode as a number.
pub fn lots_put_all(
    store: &mut [u8],
    codes: &[u8],
    lengths: &[u32],
    places: &[u64],
    answers: &mut [u32],
    mode: u64,
) -> u64
    ensures { TellsAll (batch_table (shape_of store.old) fnv store.old
        (runs codes.now lengths.now places.now answers.old) mode) store.new answers.new result }
{
    word_of(batch::put_all(store, codes, lengths, places, answers, mode))
}

pub fn lots_fill_counts(store: &mut [u8]) -> u64
    ensures { TellsAnd (fill_table (shape_of store.old) fnv store.old) store.new result }
{
    word_of(filling::fill_counts(store))
}

pub fn lots_report(store: &[u8], sheet: &[SheetRow]) -> ReportAnswer
    ensures { TellsReport (report_table (shape_of store.now) fnv store.now sheet.now) result }
{
    report_of(report::report(store, sheet))
}
