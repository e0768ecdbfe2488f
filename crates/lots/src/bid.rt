// The line `report SHEET`: the sheet read, the report asked, and its rows and sums told.
ghost use Rattle.std.specs.Prelude.{◌≡◌, ◌+◌, ◌<◌, ◌≤◌, IfSome, length, replicate};
ghost use Rattle.partition.specs.Sizes.{shape_of};
ghost use Rattle.report.specs.Report.{missing, summed};
ghost use Rattle.telling.specs.Told.{AllTold};
ghost use Rattle.lots.specs.Obeys.{Passes, ReportAsked};
ghost use Rattle.lots.specs.Reports.{FileFormed, MarkedRows, OtherForm, Reports, RowGiven, RowRefused, Summable};

use super::sheet_file;
use crate::Outcome;
use page::Place;
use partition::Shape;
use report::{LIMIT, NamedRow, OUTSIDE, ReportRefusal, Sums};
use sheets::Sheet;
use std::env::Env;
use std::fs::Files;
use store::{Answer, Done};
use telling::say;

// Stays: eight functions of one shape. One function with a closure, as `line(rt, |out| commands::sum_line(word, z, out))`, is no plainer: it would have to ask of each closure what the line asks of its room and promise how far it writes.
// A word, a place and its amount on a line; whether it could be written.
fn tell_amount<R: Print + Eprint>(rt: &R, word: &[u8], p: Place, z: i64) -> bool
    requires { length word.now ≤ 10 }
{
    let mut text = [0u8; 100];
    let n = commands::amount_line(word, p, z, &mut text);
    say::text(rt, &text[0..n])
}

fn tell_sum<R: Print + Eprint>(rt: &R, word: &[u8], z: i64) -> bool
    requires { length word.now ≤ 10 }
{
    let mut text = [0u8; 100];
    let n = commands::sum_line(word, z, &mut text);
    say::text(rt, &text[0..n])
}

// Stays: n is a number of rows, not the length of the buffer.
fn tell_many_sum<R: Print + Eprint>(rt: &R, word: &[u8], n: usize, z: i64) -> bool
    requires { length word.now ≤ 10 }
{
    let mut text = [0u8; 100];
    let k = commands::rows_sum_line(word, n, z, &mut text);
    say::text(rt, &text[0..k])
}

// Stays: n is a number of rows, not the length of the buffer.
fn tell_many<R: Print + Eprint>(rt: &R, word: &[u8], n: usize) -> bool
    requires { length word.now ≤ 10 }
{
    let mut text = [0u8; 100];
    let k = commands::rows_line(word, n, &mut text);
    say::text(rt, &text[0..k])
}

// Stays: s and flat, and in those below z and n, are there for the clauses, which docs/PROMISES.md names of these functions; a struct would be made in tell_fresh and tell and taken apart by each clause.
fn tell_bad_row<R: Print + Eprint>(rt: &R, s: &[u8], flat: &[u64], l: usize) -> bool
    requires { RowRefused s.now flat.now l }
{
    let mut text = [0u8; 100];
    let k = commands::bad_row_line(l, &mut text);
    say::text(rt, &text[0..k])
}

fn tell_not_there<R: Print + Eprint>(
    rt: &R,
    s: &[u8],
    flat: &[u64],
    n: usize,
    p: Place,
    number: usize,
) -> bool
    requires { Reports s.now flat.now n (missing p) }
{
    let mut text = [0u8; 140];
    let k = commands::not_there_line(p, number, &mut text);
    say::text(rt, &text[0..k])
}

fn tell_unread<R: Print + Eprint>(rt: &R, number: usize) -> bool {
    let mut text = [0u8; 100];
    let k = commands::unread_line(number, &mut text);
    say::text(rt, &text[0..k])
}

fn tell_no_row<R: Print + Eprint>(rt: &R, flat: &[u64], number: usize, l: usize) -> bool
    requires { OtherForm flat.now l }
{
    let mut text = [0u8; 120];
    let k = commands::no_row_line(number, l, &mut text);
    say::text(rt, &text[0..k])
}

// Stays: the match tells a row, it converts nothing; s, z, flat and n are as above.
// Row i of n, if no code names it or more than one does; of any other nothing is told.
fn tell_row<R: Print + Eprint>(
    rt: &R,
    s: &[u8],
    z: Shape,
    flat: &[u64],
    n: usize,
    i: usize,
    r: NamedRow,
) -> bool
    requires { RowGiven z s.now flat.now n i r }
{
    match r {
        NamedRow::Hidden(p, c) => tell_amount(rt, b"hidden", p, c),
        NamedRow::Doubled(p, c) => tell_amount(rt, b"doubled", p, c),
        NamedRow::Once => true,
    }
}

// Of n rows the one after the first i by its mark, and how many are told then; none where it could not be written.
fn tell_next<R: Print + Eprint>(
    rt: &R,
    s: &[u8],
    z: Shape,
    flat: &[u64],
    counts: &[u8],
    n: usize,
    i: usize,
) -> Option<usize>
    requires { MarkedRows z s.now flat.now n counts.now × (i < n) }
    ensures { IfSome result (λ told. told ≡ i + 1) }
{
    let r = report::named_row(flat, counts, i);
    tell_row(rt, s, z, flat, n, i, r).then_some(i + 1)
}

// Every row of the sheet by its mark, in the sheet's order, and their number; none where one could not be written.
fn tell_rows<R: Print + Eprint>(
    rt: &R,
    s: &[u8],
    z: Shape,
    flat: &[u64],
    counts: &[u8],
    n: usize,
) -> Option<usize>
    requires { MarkedRows z s.now flat.now n counts.now }
    ensures { AllTold n result }
{
    let mut told = 0;
    for i in 0..n {
        told = tell_next(rt, s, z, flat, counts, n, i)?;
    }
    Some(told)
}

// The rows that a report is about, by a tally of their own into n clear marks.
fn tell_marked<R: Print + Eprint>(
    rt: &R,
    s: &[u8],
    z: Shape,
    flat: &[u64],
    counts: &mut [u8],
    n: usize,
) -> bool
    requires { Summable z s.now flat.now n × (counts.old ≡ replicate n 0) }
{
    let _ = report::mark_rows(s, z, flat, counts);
    tell_rows(rt, s, z, flat, counts, n).is_some()
}

// The rows that a report is about told, with marks of their own.
fn tell_fresh<R: Print + Eprint>(rt: &R, s: &[u8], z: Shape, flat: &[u64], n: usize) -> bool
    requires { Summable z s.now flat.now n }
{
    let mut counts = [0u8; LIMIT];
    tell_marked(rt, s, z, flat, &mut counts[..n], n)
}

// The rows that a report is about told, at the page size that the store says.
fn tell_named<R: Print + Eprint>(rt: &R, s: &[u8], flat: &[u64], n: usize) -> bool
    requires { Summable (shape_of s.now) s.now flat.now n }
{
    let z = partition::shape_of(s);
    tell_fresh(rt, s, z, flat, n)
}

fn tell_sums<R: Print + Eprint>(rt: &R, s: &[u8], flat: &[u64], n: usize, x: Sums) -> bool
    requires { Reports s.now flat.now n (summed x) }
{
    tell_sum(rt, b"total", x.total)
        && tell_many_sum(rt, b"hidden", x.hidden, x.cents)
        && tell_many(rt, b"doubled", x.doubled)
}

// A line that is not obeyed was answered, or could not be.
fn passed(written: bool) -> Outcome
    ensures { Passes result }
{
    if !written {
        return Outcome::Stopped;
    }
    Outcome::Unknown
}

// The report's answer on the rows of a file.
fn tell<R: Print + Eprint>(rt: &R, s: &[u8], flat: &[u64], z: Sheet, number: usize) -> Outcome
    requires { FileFormed z flat.now }
    ensures { ReportAsked s.now result }
{
    let n = z.rows;
    match report::judge(s, flat, n) {
        Err(ReportRefusal::Store(r)) => passed(say::answer(rt, Err(r), b"", number)),
        Err(ReportRefusal::BadSheet) => passed(tell_bad_row(rt, s, flat, z.bad.unwrap())),
        Err(ReportRefusal::NotInSheet(p)) => passed(tell_not_there(rt, s, flat, n, p, number)),
        Ok(x) => {
            if !tell_named(rt, s, flat, n) {
                return Outcome::Stopped;
            }
            if !tell_sums(rt, s, flat, n, x) {
                return Outcome::Stopped;
            }
            Outcome::Listed(n)
        }
    }
}

// The report over the sheet of that name.
pub fn ask<R: Env + Files + Print + Eprint>(rt: &R, s: &[u8], name: &[u8], number: usize) -> Outcome
    ensures { ReportAsked s.now result }
{
    let mut flat = [OUTSIDE; 2 * LIMIT];
    let Some(z) = sheet_file::load(rt, name, &mut flat) else {
        return passed(tell_unread(rt, number));
    };
    if let Some(l) = z.wrong {
        return passed(tell_no_row(rt, &flat, number, l));
    }
    tell(rt, s, &flat, z, number)
}
