// The lines of a report: a place with an amount, the sums, and why a sheet is refused.
ghost use Rattle.std.specs.Prelude.{◌≡◌, [], ◌∷◌, ◌++◌, ◌+◌, ◌≤◌, length};
ghost use Rattle.commands.specs.Answers.{Adds, Lines};
ghost use Rattle.commands.specs.Numbers.{integer};
ghost use Rattle.commands.specs.Sums.{amounted, bad_row, many_rows, many_with, no_row, not_there, unreadable};

use super::answers::{add, add_because, add_number, add_place, add_signed};
use page::Place;

// A word and a space.
fn begin(word: &[u8], out: &mut [u8]) -> usize
    requires { length word.now + 1 ≤ length out.old }
    ensures adds { Adds (word.now ++ (32 ∷ [])) out.old 0 out.new result }
    ensures value { result ≡ length word.now + 1 }
{
    let a = add(out, 0, word);
    add(out, a, b" ")
}

// A word, a place and its amount.
pub fn amount_line(word: &[u8], p: Place, z: i64, out: &mut [u8]) -> usize
    requires { 89 + length word.now ≤ length out.old }
    ensures { Lines (word.now ++ (32 ∷ amounted p z)) out.new result }
{
    let a = begin(word, out);
    let b = add_place(out, a, p);
    let c = add(out, b, b" ");
    let d = add_signed(out, c, z);
    add(out, d, b"\n")
}

// A word and a sum.
pub fn sum_line(word: &[u8], z: i64, out: &mut [u8]) -> usize
    requires { 23 + length word.now ≤ length out.old }
    ensures { Lines (word.now ++ (32 ∷ integer z)) out.new result }
{
    let a = begin(word, out);
    let b = add_signed(out, a, z);
    add(out, b, b"\n")
}

// A word and a number of rows.
pub fn rows_line(word: &[u8], n: usize, out: &mut [u8]) -> usize
    requires { 27 + length word.now ≤ length out.old }
    ensures { Lines (word.now ++ (32 ∷ many_rows n)) out.new result }
{
    let a = begin(word, out);
    let b = add_number(out, a, n as u64);
    let c = add(out, b, b" rows");
    add(out, c, b"\n")
}

// A word, a number of rows and their sum.
pub fn rows_sum_line(word: &[u8], n: usize, z: i64, out: &mut [u8]) -> usize
    requires { 49 + length word.now ≤ length out.old }
    ensures { Lines (word.now ++ (32 ∷ many_with n z)) out.new result }
{
    let a = begin(word, out);
    let b = add_number(out, a, n as u64);
    let c = add(out, b, b" rows ");
    let d = add_signed(out, c, z);
    add(out, d, b"\n")
}

// Line l of the sheet breaks a rule.
pub fn bad_row_line(l: usize, out: &mut [u8]) -> usize
    requires { 70 ≤ length out.old }
    ensures { Lines (bad_row l) out.new result }
{
    let a = add(out, 0, b"refused 10");
    let b = add_because(out, a, l, b"a rule of the sheet fails there");
    add(out, b, b"\n")
}

// A code's place that is not in the sheet, told on the command's line.
pub fn not_there_line(p: Place, number: usize, out: &mut [u8]) -> usize
    requires { 138 ≤ length out.old }
    ensures { Lines (not_there p number) out.new result }
{
    let a = add(out, 0, b"refused 11 place ");
    let b = add_place(out, a, p);
    let c = add_because(out, b, number, b"a place is not in the sheet");
    add(out, c, b"\n")
}

// The sheet of the command on that line cannot be read.
pub fn unread_line(number: usize, out: &mut [u8]) -> usize
    requires { 60 ≤ length out.old }
    ensures { Lines (unreadable number) out.new result }
{
    let a = add(out, 0, b"refused");
    let b = add_because(out, a, number, b"the sheet cannot be read");
    add(out, b, b"\n")
}

// Its line l is of another form.
pub fn no_row_line(number: usize, l: usize, out: &mut [u8]) -> usize
    requires { 105 ≤ length out.old }
    ensures { Lines (no_row number l) out.new result }
{
    let a = add(out, 0, b"refused");
    let b = add_because(out, a, number, b"not PAGE SLOT VOLUME CENTS on line ");
    let c = add_number(out, b, l as u64);
    let d = add(out, c, b" of the sheet");
    add(out, d, b"\n")
}
