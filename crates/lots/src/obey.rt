// One line obeyed on the store: which call it makes. What the call answers is decided in the libraries.
ghost use Rattle.std.specs.Prelude.{◌≡◌, ℕ, ◌≤◌, length};
ghost use Rattle.store.specs.Demands.{ok};
ghost use Rattle.partition.specs.Sizes.{size, shape_for};
ghost use Rattle.store.specs.Tables.{meaning};
ghost use Rattle.lots.specs.Known.{Known};
ghost use Rattle.telling.specs.Told.{AllTold};
ghost use Rattle.lots.specs.Obeys.{InspectAsked, ListAsked, TellsNumber, Obeys, Outcomes, PageAsked, PageLength, Passes, RowAsked, SlotAsked, TellsOnly, Untouched};

use super::known::{check_known, count_known, lookup_known, put_known, remove_known, row_known};
use super::{bid, faults};
use crate::Outcome;
use commands::{Command, Fault};
use std::env::Env;
use std::fs::Files;
use store::Answer;
use telling::say;

// A line that reads: its answer was written, or could not be. Of a row the code stands in the buffer.
fn tell<R: Print + Eprint>(rt: &R, a: Answer, code: &[u8], number: usize) -> Outcome
    requires { length code.now ≤ 64 }
    ensures { TellsOnly (meaning a) result }
{
    if !say::answer(rt, a, code, number) {
        return Outcome::Stopped;
    }
    Outcome::Told(a)
}

fn told<R: Print + Eprint>(rt: &R, a: Answer, number: usize) -> Outcome
    ensures { TellsOnly (meaning a) result }
{
    tell(rt, a, b"", number)
}

// A line that asks no call.
pub fn unknown<R: Print + Eprint>(rt: &R, f: Fault, number: usize) -> Outcome
    ensures { Passes result }
{
    if !say::fault(rt, f, number) {
        return Outcome::Stopped;
    }
    Outcome::Unknown
}

// The number of rows, after they are told.
fn listed<R: Print + Eprint>(rt: &R, t: Option<usize>) -> Outcome
    ensures { (n : ℕ) → AllTold n t → TellsNumber n result }
{
    match t {
        Some(n) if say::number(rt, b"rows", n) => Outcome::Listed(n),
        _ => Outcome::Stopped,
    }
}

// Whether an answer is no refusal.
pub fn is_done(a: Answer) -> bool
    ensures { result ≡ ok (meaning a) }
{
    a.is_ok()
}

// One where the line was refused or unknown, else none.
pub fn faults_in(o: Outcome) -> usize {
    match o {
        Outcome::Unknown | Outcome::Told(Err(_)) => 1,
        _ => 0,
    }
}

// The answer of a call that writes.
pub fn wrote<R: Print + Eprint>(rt: &R, a: Answer, number: usize) -> Outcome
    ensures { Outcomes (meaning a) result }
{
    if !say::answer(rt, a, b"", number) {
        return Outcome::Stopped;
    }
    if is_done(a) {
        return Outcome::Changed(a);
    }
    Outcome::Told(a)
}

fn row<R: Print + Eprint>(rt: &R, s: &[u8], n: usize, known: bool, number: usize) -> Outcome
    requires { Known known s.now }
    ensures { RowAsked n s.now result }
{
    let mut code = [0u8; 64];
    let a = row_known(s, n, &mut code, known);
    tell(rt, a, &code, number)
}

// Every row, or why the store is refused.
fn list<R: Print + Eprint>(rt: &R, s: &[u8], known: bool, number: usize) -> Outcome
    requires { Known known s.now }
    ensures { ListAsked s.now result }
{
    let a = check_known(s, known);
    if !is_done(a) {
        return told(rt, a, number);
    }
    let z = partition::shape_of(s);
    let n = counts::rows_counted(s);
    let mut lines = io::buffer();
    listed(rt, telling::list_rows(rt, s, z, n, &mut lines))
}

// What inspection says of a page's first slot.
fn first_slot(page: &[u8]) -> Answer
    ensures { SlotAsked page.now 0 (meaning result) }
{
    let mut code = [0u8; 64];
    page_reader::inspect(page, 0, &mut code)
}

// The rows of a page and their number, or why inspection refuses it. A free page has none.
fn list_page<R: Print + Eprint>(rt: &R, page: &[u8], number: usize) -> Outcome
    requires { length page.now ≡ size (shape_for (length page.now)) }
    ensures { PageAsked page.now result }
{
    if words::all_zero(page) {
        return listed(rt, Some(0));
    }
    let a = first_slot(page);
    if !is_done(a) {
        return told(rt, a, number);
    }
    listed(rt, telling::page_rows(rt, page, words::get16(page, 2)))
}

// The length of the store's pages, as it says itself; one too short to say it has no page.
fn page_size(s: &[u8]) -> usize
    ensures { PageLength s.now result }
{
    if s.len() < 24 {
        return 1024;
    }
    let z = partition::shape_of(s);
    let size = 8 + z.capacity;
    size
}

// The rows of page p, if the store has it.
fn inspect<R: Print + Eprint>(rt: &R, s: &[u8], p: usize, number: usize) -> Outcome
    ensures { InspectAsked p s.now result }
{
    let size = page_size(s);
    if p >= s.len() / size {
        return unknown(rt, Fault::Range, number);
    }
    let a = p * size;
    let e = a + size;
    list_page(rt, &s[a..e], number)
}

// The line's command on the store. Format is left to the session, which has room for another length.
pub fn obey<R: Env + Files + Print + Eprint>(
    rt: &R,
    s: &mut [u8],
    line: &[u8],
    number: usize,
    known: bool,
) -> Outcome
    requires { Known known s.old }
    ensures { Obeys line.now s.old result s.new }
{
    let mut code = io::buffer();
    let c = commands::parse(line, &mut code);
    match c {
        Command::Nothing => Outcome::Silent,
        Command::Unknown => unknown(rt, faults::fault_of(line), number),
        Command::Format(n, size) => Outcome::Format(n, size),
        Command::Put(k, place, mode) => wrote(
            rt,
            put_known(s, &code[0..k], place, mode, known),
            number,
        ),
        Command::Lookup(k) => told(rt, lookup_known(s, &code[0..k], known), number),
        Command::Remove(k) => wrote(rt, remove_known(s, &code[0..k], known), number),
        Command::Count => told(rt, count_known(s, known), number),
        Command::Row(n) => row(rt, s, n, known, number),
        Command::Listing => list(rt, s, known, number),
        Command::Check => told(rt, check_known(s, known), number),
        Command::Inspect(p) => inspect(rt, s, p, number),
        Command::Report => bid::ask(rt, s, &line[7..], number),
        Command::Counts => wrote(rt, filling::fill_counts(s), number),
    }
}

// A line that the session has no room for: a comment is passed over, any other is unknown.
pub fn too_long<R: Print + Eprint>(rt: &R, line: &[u8], number: usize) -> Outcome
    ensures { Untouched result }
{
    if line.len() > 0 {
        if line[0] == 35 {
            return Outcome::Silent;
        }
    }
    unknown(rt, Fault::Long, number)
}

// The lines that there are.
pub fn help<R: Print + Eprint>(rt: &R) -> Outcome {
    if !say::help(rt) {
        return Outcome::Stopped;
    }
    Outcome::Silent
}
