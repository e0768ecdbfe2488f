// The report's answer over a sheet's numbers.
ghost use Rattle.std.specs.Prelude.{◌≡◌, ◌*◌, ◌≤◌, length, replicate};
ghost use Rattle.ground.specs.Ladder.{Answers};
ghost use Rattle.hash.specs.Fnv.{fnv};
ghost use Rattle.partition.specs.Listing.{listing};
ghost use Rattle.partition.specs.Sizes.{shape_of};
ghost use Rattle.store.specs.Pages.{rows_held};
ghost use Rattle.report.specs.Report.{limit, reported};
ghost use Rattle.report.specs.Numbers.{Lowered, SheetReady, ToldBy, numbers_table};

use super::tally::{Numbers, add_up, sound, tally};
use crate::{HIGHEST, LIMIT, ReportRefusal, Sums};
use partition::Shape;

// The sum of k amounts, from their raised sum.
pub fn lower(sum: u64, k: usize) -> i64
    requires { (sum ≤ k * 2000000000000) × (k ≤ 5200000) }
    ensures { Lowered sum k result }
{
    let base = k as u64 * HIGHEST as u64;
    if base <= sum {
        return (sum - base) as i64;
    }
    0 - (base - sum) as i64
}

// Stays: SheetReady, which tally and told_fresh ask too, is of the store beside the numbers, so the numbers' type cannot hold it.
// Over a sound sheet, with a clear mark for each row: what no code names is what is left of the sheet.
fn told<'a>(
    s: &[u8],
    z: Shape,
    sheet: Numbers<'a>,
    counts: &mut [u8],
) -> Result<Sums, ReportRefusal>
    requires { SheetReady z s.now sheet.ranks.now sheet.raised.now × (counts.old ≡ replicate (length sheet.ranks.now) 0) }
    ensures { ToldBy sheet.entry.ranks.now sheet.entry.raised.now (listing z fnv (rows_held z s.now)) counts.old (reported result) }
{
    let t = tally(s, z, sheet, counts).map_err(ReportRefusal::NotInSheet)?;
    let hidden = sheet.ranks.len() - t.named;
    let rest = add_up(sheet.raised) - t.once;
    Ok(Sums {
        total: lower(t.sum, t.codes),
        hidden,
        cents: lower(rest, hidden),
        doubled: t.doubled,
    })
}

// The report over a sound sheet, with marks of its own.
fn told_fresh<'a>(s: &[u8], z: Shape, sheet: Numbers<'a>) -> Result<Sums, ReportRefusal>
    requires { SheetReady z s.now sheet.ranks.now sheet.raised.now }
    ensures { ToldBy sheet.entry.ranks.now sheet.entry.raised.now (listing z fnv (rows_held z s.now))
        (replicate (length sheet.entry.ranks.now) 0) (reported result) }
{
    let n = sheet.ranks.len();
    let mut counts = [0u8; LIMIT];
    told(s, z, sheet, &mut counts[..n])
}

// The report over a sheet's numbers: ranks from 0, raised amounts from the limit on, n rows.
pub fn judge(s: &[u8], flat: &[u64], n: usize) -> Result<Sums, ReportRefusal>
    requires { length flat.now ≡ 2 * limit }
    ensures { Answers (numbers_table (shape_of s.now) fnv s.now flat.now n) (reported result) }
{
    let z = store_check::said_shape(s)?;
    if LIMIT < n {
        return Err(ReportRefusal::BadSheet);
    }
    let sheet = Numbers {
        ranks: &flat[..n],
        raised: &flat[LIMIT..LIMIT + n],
    };
    if !sound(sheet.ranks, sheet.raised) {
        return Err(ReportRefusal::BadSheet);
    }
    store_check::accept(s, z)?;
    told_fresh(s, z, sheet)
}
