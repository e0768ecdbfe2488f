// A line of a sheet: PAGE SLOT VOLUME CENTS, with blanks or tabs between.
ghost use Rattle.std.specs.Prelude.{◌≡◌, ◌≤◌, cond, eqb, length};
ghost use Rattle.std.specs.Option.{unwrap_or};
ghost use Rattle.commands.specs.SheetLines.{blank_kind, KindRun, FourSay, LineSays};
ghost use Rattle.commands.specs.declared.SheetLine.TheVariants.{Other};

use super::numbers::read_signed;
use crate::SheetLine;
use page::Place;

// A space, a tab or a carriage return.
pub fn is_blank(b: u8) -> bool
    ensures { result ≡ eqb (blank_kind b) 1 }
{
    matches!(b, b' ' | b'\t' | b'\r')
}

// Where the bytes end that begin at i and are blanks, or are none.
fn run_end(line: &[u8], i: usize, blank: bool) -> usize
    requires { i ≤ length line.now }
    ensures { KindRun (cond blank 1 0) line.now i result }
{
    for j in i..line.len() {
        let k = is_blank(line[j]);
        if k != blank {
            return j;
        }
    }
    line.len()
}

// The row of four words.
fn four_words(page: &[u8], slot: &[u8], volume: &[u8], cents: &[u8]) -> Option<SheetLine>
    ensures { FourSay page.now slot.now volume.now cents.now (unwrap_or result Other) }
{
    let p = read_signed(page, 2147483647)?;
    let s = read_signed(slot, 32767)?;
    let v = read_signed(volume, 32767)?;
    let z = read_signed(cents, 9223372036854775807)?;
    let place = Place {
        page: p as i32,
        slot: s as i16,
        volume: v as i16,
    };
    Some(SheetLine::Amount(place, z))
}

// What a line of a sheet says.
pub fn sheet_line(line: &[u8]) -> SheetLine
    ensures { LineSays line.now result }
{
    let a = run_end(line, 0, true);
    if line.len() <= a {
        return SheetLine::Passed;
    }
    if line[a] == b'#' {
        return SheetLine::Passed;
    }
    let b = run_end(line, a, false);
    let c = run_end(line, b, true);
    let d = run_end(line, c, false);
    let e = run_end(line, d, true);
    let f = run_end(line, e, false);
    let g = run_end(line, f, true);
    let h = run_end(line, g, false);
    let j = run_end(line, h, true);
    if j < line.len() {
        return SheetLine::Other;
    }
    four_words(&line[a..b], &line[c..d], &line[e..f], &line[g..h]).unwrap_or(SheetLine::Other)
}
