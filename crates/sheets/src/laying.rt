// A line of a sheet laid out: its row, or that it is of another form.
ghost use Rattle.std.specs.Prelude.{◌≡◌, ◌*◌, length};
ghost use Rattle.commands.specs.SheetLines.{FitsRow};
ghost use Rattle.commands.specs.declared.SheetLine.TheVariants.{Amount, Other};
ghost use Rattle.report.specs.Report.{limit};
ghost use Rattle.sheets.specs.Files.{amount_row};
ghost use Rattle.sheets.specs.Laying.{FitsFields, LaidBehind, LowSays};

use crate::Sheet;
use commands::SheetLine;
use page::Place;
use report::{LIMIT, MOST_RAISED, OUTSIDE, SheetRow};

// One more than the rank of row i, unless the row breaks a rule after one whose rank is below `low`.
fn low_after(flat: &[u64], i: usize, low: u64) -> Option<u64>
    requires { length flat.now ≡ 2 * limit }
    ensures { LowSays flat.now i low result }
{
    if LIMIT <= i {
        return None;
    }
    if MOST_RAISED < flat[LIMIT + i] {
        return None;
    }
    let p = flat[i];
    if p < low || OUTSIDE <= p {
        return None;
    }
    Some(p + 1)
}

// The row of a place and its cents, whose numbers fit their fields.
fn row_with(p: Place, c: i64) -> SheetRow
    ensures { (result ≡ amount_row p c) × FitsRow p c }
{
    SheetRow {
        page: p.page,
        slot: p.slot,
        volume: p.volume,
        cents: c,
    }
}

impl Sheet {
    // A row on line l laid out. Those past one too many are not counted.
    fn add_row(&mut self, flat: &mut [u64], l: usize, p: Place, c: i64)
        requires { length flat.old ≡ 2 * limit }
        ensures { FitsRow p c × LaidBehind (Amount p c) l self.old flat.old self.new flat.new }
    {
        let i = self.rows;
        let row = row_with(p, c);
        if LIMIT < i {
            return;
        }
        self.rows = report::lay(flat, i, row);
        if self.bad.is_some() {
            return;
        }
        match low_after(flat, i, self.low) {
            Some(low) => self.low = low,
            None => self.bad = Some(l),
        }
    }

    // Line l of another form: the first one counts.
    fn add_other(&mut self, flat: &[u64], l: usize)
        ensures { LaidBehind Other l self.old flat.now self.new flat.now }
    {
        if self.wrong.is_none() {
            self.wrong = Some(l);
        }
    }

    // Line l, which says x, laid out.
    pub fn add_line(&mut self, flat: &mut [u64], l: usize, x: SheetLine)
        requires { length flat.old ≡ 2 * limit }
        ensures { FitsFields x × LaidBehind x l self.old flat.old self.new flat.new }
    {
        match x {
            SheetLine::Passed => {}
            SheetLine::Amount(p, c) => self.add_row(flat, l, p, c),
            SheetLine::Other => self.add_other(flat, l),
        }
    }
}
