// The bid report: one call over a store and a sheet. `spread` and `report` take the run of sheet rows and are thin; the rest works on numbers.
#![tactic(auto)]

ghost use Rattle.std.specs.Prelude.{◌≡◌, length};
ghost use Rattle.ground.specs.Ladder.{Answers};
ghost use Rattle.hash.specs.Fnv.{fnv};
ghost use Rattle.partition.specs.Sizes.{shape_of};
ghost use Rattle.report.specs.Report.{reported, report_table};
ghost use Rattle.report.specs.declared.ReportRefusal.TheVariants.{Store};
ghost use Rattle.report.specs.Numbers.{spread_from};

use page::Place;
use store::Refusal;

mod answer;
mod named;
mod rows;
mod tally;

pub use answer::judge;
pub use named::{mark_rows, named_row};
pub use rows::lay;

// The most rows of a sheet.
pub const LIMIT: usize = 200000;

// What no rank and no raised amount is.
pub const OUTSIDE: u64 = 1 << 63;

// The highest amount, by which each is raised.
const HIGHEST: i64 = 1_000_000_000_000;

// The most that a raised amount is: two times what it is raised by.
pub const MOST_RAISED: u64 = 2_000_000_000_000;

// A row of the sheet: the parts of a row place, and an amount in cents.
#[repr(C)]
#[derive(Clone, Copy)]
pub struct SheetRow {
    pub page: i32,
    pub slot: i16,
    pub volume: i16,
    pub cents: i64,
}

// The total over the listing, the sheet rows that no code names with their sum, and those that more than one names.
#[derive(Clone, Copy)]
pub struct Sums {
    pub total: i64,
    pub hidden: usize,
    pub cents: i64,
    pub doubled: usize,
}

// Why there are no sums: a refusal that other calls have too, or the report's own two.
#[derive(Clone, Copy)]
pub enum ReportRefusal {
    Store(Refusal),
    // the sheet breaks a rule
    BadSheet,
    // a code's place is not in the sheet
    NotInSheet(Place),
}

impl From<Refusal> for ReportRefusal {
    ghost from_gives = { λ r e. e ≡ Store r };

    fn from(r: Refusal) -> ReportRefusal {
        ReportRefusal::Store(r)
    }
}

// What a tally counts: the codes with the sum of their raised amounts, the sheet rows that they name with the sum of theirs, and those that more than one names.
#[derive(Clone, Copy)]
pub struct Counted {
    pub codes: usize,
    pub sum: u64,
    pub named: usize,
    pub once: u64,
    pub doubled: usize,
}

// A row of the sheet by the codes that name it: none, with its place and cents; one; more than one.
#[derive(Clone, Copy)]
pub enum NamedRow {
    Hidden(Place, i64),
    Once,
    Doubled(Place, i64),
}

// The sheet as numbers: the one loop over it.
pub fn spread(sheet: &[SheetRow], flat: &mut [u64]) -> usize
    ensures { (result ≡ length sheet.now) × (flat.new ≡ spread_from 0 sheet.now flat.old) }
{
    let mut n = 0;
    for row in sheet {
        n = rows::lay(flat, n, *row);
    }
    n
}

// The one call: the sums over the store's listing and the sheet.
pub fn report(store: &[u8], sheet: &[SheetRow]) -> Result<Sums, ReportRefusal>
    ensures { Answers (report_table (shape_of store.now) fnv store.now sheet.now) (reported result) }
{
    // filled with what no row has: 16 bytes an instruction, where zeros are set byte by byte
    let mut flat = [OUTSIDE; 2 * LIMIT];
    let n = spread(sheet, &mut flat);
    answer::judge(store, &flat, n)
}
