// The C face of include/lots.h: each export is the call of lots_c of that name, with its clauses.
#![tactic(auto)]

ghost use Rattle.std.specs.Prelude.{length};
ghost use Rattle.hash.specs.Fnv.{fnv};
ghost use Rattle.partition.specs.Sizes.{shape_for, shape_of};
ghost use Rattle.store.specs.Tables.{format_sized, check_table, count_table, lookup_table, put_table, remove_table, row_table, inspect_table};
ghost use Rattle.batch.specs.Batch.{runs, batch_table};
ghost use Rattle.filling.specs.Filling.{fill_table};
ghost use Rattle.report.specs.Report.{report_table};
ghost use Rattle.lots_c.specs.Words.{Tells, TellsAnd, TellsAll, TellsRow, TellsReport};

use lots_c::ReportAnswer;
use report::SheetRow;

#[unsafe(no_mangle)]
pub extern "C" fn lots_format(store: &mut [u8], page_size: u64) -> u64
    ensures { TellsAnd (format_sized page_size store.old) store.new result }
{
    lots_c::lots_format(store, page_size)
}

#[unsafe(no_mangle)]
pub extern "C" fn lots_check(store: &[u8]) -> u64
    ensures { Tells (check_table (shape_of store.now) fnv store.now) result }
{
    lots_c::lots_check(store)
}

#[unsafe(no_mangle)]
pub extern "C" fn lots_count(store: &[u8]) -> u64
    ensures { Tells (count_table (shape_of store.now) fnv store.now) result }
{
    lots_c::lots_count(store)
}

#[unsafe(no_mangle)]
pub extern "C" fn lots_lookup(store: &[u8], code: &[u8]) -> u64
    ensures { Tells (lookup_table (shape_of store.now) fnv store.now code.now) result }
{
    lots_c::lots_lookup(store, code)
}

#[unsafe(no_mangle)]
pub extern "C" fn lots_row(store: &[u8], n: u64, out: &mut [u8], code_len: &mut u32) -> u64
    ensures { TellsRow (row_table (shape_of store.now) fnv store.now n out.old)
        out.new code_len.old code_len.new result }
{
    lots_c::lots_row(store, n, out, code_len)
}

#[unsafe(no_mangle)]
pub extern "C" fn lots_inspect(page: &[u8], n: u64, out: &mut [u8], code_len: &mut u32) -> u64
    ensures { TellsRow (inspect_table (shape_for (length page.now)) fnv page.now n out.old)
        out.new code_len.old code_len.new result }
{
    lots_c::lots_inspect(page, n, out, code_len)
}

#[unsafe(no_mangle)]
pub extern "C" fn lots_remove(store: &mut [u8], code: &[u8]) -> u64
    ensures { TellsAnd (remove_table (shape_of store.old) fnv store.old code.now) store.new result }
{
    lots_c::lots_remove(store, code)
}

// Stays: the C header has the mode as a number.
#[unsafe(no_mangle)]
pub extern "C" fn lots_put(
    store: &mut [u8],
    code: &[u8],
    page: i32,
    slot: i16,
    volume: i16,
    mode: u64,
) -> u64
    ensures { TellsAnd (put_table (shape_of store.old) fnv store.old code.now
        (record { page = page; slot = slot; volume = volume }) mode) store.new result }
{
    lots_c::lots_put(store, code, page, slot, volume, mode)
}

// Stays: the C header has the runs side by side and the mode as a number.
#[unsafe(no_mangle)]
pub extern "C" fn lots_put_all(
    store: &mut [u8],
    codes: &[u8],
    lengths: &[u32],
    places: &[u64],
    answers: &mut [u32],
    mode: u64,
) -> u64
    ensures { TellsAll (batch_table (shape_of store.old) fnv store.old
        (runs codes.now lengths.now places.now answers.old) mode) store.new answers.new result }
{
    lots_c::lots_put_all(store, codes, lengths, places, answers, mode)
}

#[unsafe(no_mangle)]
pub extern "C" fn lots_fill_counts(store: &mut [u8]) -> u64
    ensures { TellsAnd (fill_table (shape_of store.old) fnv store.old) store.new result }
{
    lots_c::lots_fill_counts(store)
}

#[unsafe(no_mangle)]
pub extern "C" fn lots_report(store: &[u8], sheet: &[SheetRow]) -> ReportAnswer
    ensures { TellsReport (report_table (shape_of store.now) fnv store.now sheet.now) result }
{
    lots_c::lots_report(store, sheet)
}
