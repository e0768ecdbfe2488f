// Which rows of a sheet no code names, and which more than one does, from their marks.
ghost use Rattle.std.specs.Prelude.{◌≡◌, ◌<◌, length};
ghost use Rattle.report.specs.Named.{LaidSheet, Markable, Marks, ranked_place, TellsMark};

use super::answer::lower;
use super::tally::{Numbers, tally};
use crate::{Counted, LIMIT, NamedRow};
use page::Place;
use partition::Shape;

// The place that a rank is of.
fn place_at(w: u64) -> Place
    ensures { result ≡ ranked_place w }
{
    Place {
        page: (w / 4294967296 % 2147483648) as i32,
        slot: (w / 65536 % 32768) as i16,
        volume: (w % 32768) as i16,
    }
}

// What the mark of row i says.
pub fn named_row(flat: &[u64], counts: &[u8], i: usize) -> NamedRow
    requires { LaidSheet flat.now (length counts.now) × (i < length counts.now) }
    ensures { TellsMark flat.now counts.now i result }
{
    let c = counts[i];
    if c == 1 {
        return NamedRow::Once;
    }
    let p = place_at(flat[i]);
    let k = LIMIT + i;
    let z = lower(flat[k], 1);
    if c == 0 {
        return NamedRow::Hidden(p, z);
    }
    NamedRow::Doubled(p, z)
}

// The marks of the sheet's rows, over the listing of an accepted store.
pub fn mark_rows(s: &[u8], z: Shape, flat: &[u64], counts: &mut [u8]) -> Result<Counted, Place>
    requires { Markable z s.now flat.now (length counts.old) }
    ensures { Marks z s.now flat.now counts.old result counts.new }
{
    let n = counts.len();
    let e = LIMIT + n;
    let sheet = Numbers {
        ranks: &flat[..n],
        raised: &flat[LIMIT..e],
    };
    tally(s, z, sheet, counts)
}
