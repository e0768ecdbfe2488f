// Answers as lines of text, put together in a buffer.
ghost use Rattle.std.specs.Prelude.{◌≡◌, true, [], ◌∷◌, ◌++◌, ◌+◌, ◌*◌, ◌≤◌, ◌<◌, length, take, drop, pos};
ghost use Rattle.std.specs.Int.Signed.{lt_z};
ghost use Rattle.io.specs.Digits.{last_digits};
ghost use Rattle.store.specs.Tables.{meaning, refusal};
ghost use Rattle.commands.specs.Answers.{Adds, Lines, because, faulty, numbered, placed, rowed, shows, why};
ghost use Rattle.words.specs.Le.{bytes};
ghost use Rattle.commands.specs.Codes.{escape, glyphs, shown, upper, Plain, PlainFrom};
ghost use Rattle.commands.specs.Numbers.{decimal, integer, signed};
ghost use Rattle.commands.specs.Numbers.{width as Numbers·width};
ghost use Rattle.commands.specs.Texts.{text as Texts·text};

use crate::Fault;
use page::Place;
use store::{Answer, Done, Refusal};

// A text goes to out at an index.
// Stays: no heap; the caller lends the line, and the next index is all there is to hand on.
pub fn add(out: &mut [u8], at: usize, text: &[u8]) -> usize
    requires { at + length text.now ≤ length out.old }
    ensures { Adds text.now out.old at out.new result }
{
    words::copy_at(out, at, text);
    at + text.len()
}

// How many decimal digits a number has.
fn width(n: u64) -> usize
    ensures { (result ≡ Numbers·width n n) × (result ≤ 20) }
{
    match n.checked_ilog10() {
        Some(k) => k as usize + 1,
        None => 1,
    }
}

// The last k digits of a number go to out at an index.
// Stays: no heap, so the digits go into the line that the caller lends, from the last one on.
fn spell(out: &mut [u8], at: usize, k: usize, n: u64)
    requires { at + k ≤ length out.old }
    ensures { Adds (last_digits 10 k n) out.old at out.new (at + k) }
{
    let mut rest = n;
    for i in (0..k).rev() {
        out[at + i] = b'0' + (rest % 10) as u8;
        rest /= 10;
    }
}

// Stays: no heap; the caller lends the line, and the next index is all there is to hand on.
pub fn add_number(out: &mut [u8], at: usize, n: u64) -> usize
    requires { at + 20 ≤ length out.old }
    ensures adds { Adds (decimal n) out.old at out.new result }
    ensures upper_bound { result ≤ at + 20 }
{
    let k = width(n);
    spell(out, at, k, n);
    at + k
}

// The digits of a number below 10,000 as the bytes of a word, the first one lowest: two and two at once.
fn four_digits(n: u64) -> u64
    requires { n < 10000 }
    ensures { bytes 4 result ≡ last_digits 10 4 n }
{
    let high = n / 100;
    let both = 65536 * n - 6553599 * high;
    let x = both * 103 / 1024;
    let tens = x % 16 + x / 65536 % 16 * 65536;
    808464432 + 256 * both - 2559 * tens
}

// The four bytes of a word go to out at an index.
// Stays: no heap; the caller lends the line, and the next index is all there is to hand on.
fn add_word(out: &mut [u8], at: usize, d: u64) -> usize
    requires { at + 4 ≤ length out.old }
    ensures { Adds (bytes 4 d) out.old at out.new result }
{
    let e = d / 256;
    let f = e / 256;
    let text = [
        (d % 256) as u8,
        (e % 256) as u8,
        (f % 256) as u8,
        (f / 256 % 256) as u8,
    ];
    add(out, at, &text)
}

// A number below 10,000. Up to two bytes after its digits are written too.
// Stays: no heap; the caller lends the line, and the next index is all there is to hand on.
fn add_small(out: &mut [u8], at: usize, n: u64) -> usize
    requires { (at + 4 ≤ length out.old) × (n < 10000) }
    ensures adds { Adds (decimal n) out.old at out.new result }
    ensures upper_bound { result ≤ at + 20 }
{
    if n < 10 {
        let text = [b'0' + n as u8];
        return add(out, at, &text);
    }
    let d = four_digits(n);
    if n > 999 {
        return add_word(out, at, d);
    }
    if n > 99 {
        add_word(out, at, d / 256);
        return at + 3;
    }
    add_word(out, at, d / 256 / 256);
    at + 2
}

// The size of an amount: any of 64 bits.
#[tactic(auto, using(crate::proofs::Cents::size_is))]
fn size_of(z: i64) -> u64
    ensures { z ≡ signed (lt_z z (pos 0)) result }
{
    z.unsigned_abs()
}

// A number of any size, its sign before it.
// Stays: no heap; the caller lends the line, and the next index is all there is to hand on.
pub fn add_signed(out: &mut [u8], at: usize, z: i64) -> usize
    requires { at + 21 ≤ length out.old }
    ensures adds { Adds (integer z) out.old at out.new result }
    ensures upper_bound { result ≤ at + 21 }
{
    let n = size_of(z);
    if z < 0 {
        let next = add(out, at, b"-");
        return add_number(out, next, n);
    }
    if n < 10000 {
        return add_small(out, at, n);
    }
    add_number(out, at, n)
}

// Stays: no heap; the caller lends the line, and the next index is all there is to hand on.
pub fn add_place(out: &mut [u8], at: usize, p: Place) -> usize
    requires { at + 65 ≤ length out.old }
    ensures adds { Adds (placed p) out.old at out.new result }
    ensures upper_bound { result ≤ at + 65 }
{
    let a = add_signed(out, at, i64::from(p.page));
    let b = add(out, a, b" ");
    let c = add_signed(out, b, i64::from(p.slot));
    let d = add(out, c, b" ");
    add_signed(out, d, i64::from(p.volume))
}

fn upper_digit(d: u8) -> u8
    requires { d < 16 }
    ensures { result ≡ upper d }
{
    if d < 10 { b'0' + d } else { 55 + d }
}

// Stays: no heap; the caller lends the line, and the next index is all there is to hand on.
fn add_escaped(out: &mut [u8], at: usize, b: u8) -> usize
    requires { at + 3 ≤ length out.old }
    ensures { Adds (escape b) out.old at out.new result }
{
    let text = [b'%', upper_digit(b / 16), upper_digit(b % 16)];
    add(out, at, &text)
}

// Stays: no heap; the caller lends the line, and the next index is all there is to hand on.
fn add_byte(out: &mut [u8], at: usize, b: u8) -> usize
    requires { at + 3 ≤ length out.old }
    ensures { Adds (glyphs b) out.old at out.new result }
{
    if matches!(b, b'!'..=b'~') && b != b'%' {
        return add(out, at, &[b]);
    }
    add_escaped(out, at, b)
}

// A code byte by byte.
// Stays: no heap; the caller lends the line, and the next index is all there is to hand on.
fn add_bytes(out: &mut [u8], at: usize, code: &[u8]) -> usize
    requires { at + 3 * length code.now ≤ length out.old }
    ensures adds { Adds (shown code.now) out.old at out.new result }
    ensures upper_bound { result ≤ at + 3 * length code.now }
{
    let mut r = at;
    for b in code {
        r = add_byte(out, r, *b);
    }
    r
}

// 0 for a byte that is shown as itself, else 1.
fn odd(x: u8) -> u8
    ensures { result ≡ 0 → Plain x }
{
    u8::from(!matches!(x, b'!'..=b'~') || x == b'%')
}

// Whether the eight bytes from a on are shown as themselves. A fixed number of turns and no way out before the end, so that it vectorises.
fn eight_plain(code: &[u8], a: usize) -> bool
    requires { a + 8 ≤ length code.now }
    ensures { result ≡ true → PlainFrom code.now a (a + 8) }
{
    let mut acc: u8 = 0;
    for b in &code[a..a + 8] {
        acc |= odd(*b);
    }
    acc == 0
}

// The eight bytes from i on go to out at an index: all read before one is written, so that it is one move.
// Stays: no heap; the caller lends the line, and the next index is all there is to hand on.
fn copy_eight(out: &mut [u8], at: usize, code: &[u8], i: usize) -> usize
    requires { (at + 8 ≤ length out.old) × (i + 8 ≤ length code.now) }
    ensures { Adds (take 8 (drop i code.now)) out.old at out.new result }
{
    let text = [
        code[i],
        code[i + 1],
        code[i + 2],
        code[i + 3],
        code[i + 4],
        code[i + 5],
        code[i + 6],
        code[i + 7],
    ];
    add(out, at, &text)
}

// A code, eight bytes at a time while they are shown as themselves; the last eight may begin among those before.
// Stays: no heap; the caller lends the line, and the next index is all there is to hand on.
fn add_code(out: &mut [u8], at: usize, code: &[u8]) -> usize
    requires { at + 3 * length code.now ≤ length out.old }
    ensures adds { Adds (shown code.now) out.old at out.new result }
    ensures upper_bound { result ≤ at + 3 * length code.now }
{
    let n = code.len();
    if n < 8 {
        return add_bytes(out, at, code);
    }
    let last = n - 8;
    // the blocks that begin before the last eight bytes
    let turns = (n - 1) / 8;
    for k in 0..turns {
        let i = 8 * k;
        if !eight_plain(code, i) {
            return add_bytes(out, at + i, &code[i..]);
        }
        copy_eight(out, at + i, code, i);
    }
    if !eight_plain(code, last) {
        let i = 8 * turns;
        return add_bytes(out, at + i, &code[i..]);
    }
    copy_eight(out, at + last, code, last)
}

// The number of a line, and why it is not obeyed.
// Stays: no heap; the caller lends the line, and the next index is all there is to hand on.
pub fn add_because(out: &mut [u8], at: usize, number: usize, text: &[u8]) -> usize
    requires { at + 28 + length text.now ≤ length out.old }
    ensures adds { Adds (because number text.now) out.old at out.new result }
    ensures upper_bound { result ≤ at + 28 + length text.now }
{
    let a = add(out, at, b" line ");
    let b = add_number(out, a, number as u64);
    let c = add(out, b, b": ");
    add(out, c, text)
}

// A refusal's number, and of 2 the page.
fn add_refusal(out: &mut [u8], f: Refusal) -> usize
    requires { 54 ≤ length out.old }
    ensures adds { Adds (numbered (refusal f)) out.old 0 out.new result }
    ensures upper_bound { result ≤ 54 }
{
    let n = store::numbers_of(f);
    let a = add(out, 0, b"refused ");
    let b = add_number(out, a, n.number as u64);
    if n.number == 2 {
        let c = add(out, b, b" page ");
        return add_number(out, c, n.page as u64);
    }
    b
}

// The number of a line that is refused, and why.
// Stays: no heap; the caller lends the line, and the next index is all there is to hand on.
fn add_reason(out: &mut [u8], at: usize, number: usize, f: Refusal) -> usize
    requires { at + 68 ≤ length out.old }
    ensures adds { Adds (because number (why (refusal f))) out.old at out.new result }
    ensures upper_bound { result ≤ at + 68 }
{
    match f {
        Refusal::BadLength => add_because(
            out,
            at,
            number,
            b"no store has such a length or page size",
        ),
        Refusal::BadPage(_) => add_because(out, at, number, b"a rule of the store fails there"),
        Refusal::BadCode => add_because(out, at, number, b"a code has 1 to 64 bytes"),
        Refusal::BadPlace => add_because(out, at, number, b"a part of the place is negative"),
        Refusal::NoCode => add_because(out, at, number, b"no such code"),
        Refusal::PrefixFull => add_because(out, at, number, b"no room for codes that hash like it"),
        Refusal::PagesFull => add_because(out, at, number, b"no free page for its buckets"),
        Refusal::ShortOutput => add_because(out, at, number, b"the output is under 64 bytes"),
        Refusal::NoRow => add_because(out, at, number, b"not so many rows"),
        Refusal::BadRuns => add_because(out, at, number, b"the runs differ in length"),
        Refusal::KnownCode => add_because(out, at, number, b"the code is there"),
        Refusal::BadMode => add_because(out, at, number, b"no such mode"),
    }
}

// Stays: a length and no array type, since the caller lends a line of any length from answer_line's on.
fn refusal_text(out: &mut [u8], number: usize, f: Refusal) -> usize
    requires { 127 ≤ length out.old }
    ensures adds { Adds (shows [] number (refusal f)) out.old 0 out.new result }
    ensures upper_bound { result ≤ 127 }
{
    let n = add_refusal(out, f);
    add_reason(out, n, number, f)
}

fn replaced_text(out: &mut [u8], p: Place) -> usize
    requires { 127 ≤ length out.old }
    ensures adds { Adds (Texts·text "replaced " ++ placed p) out.old 0 out.new result }
    ensures upper_bound { result ≤ 127 }
{
    let n = add(out, 0, b"replaced ");
    add_place(out, n, p)
}

// Stays: no heap; the caller lends the line, and the next index is all there is to hand on.
fn row_text(out: &mut [u8], at: usize, code: &[u8], p: Place) -> usize
    requires { at + 127 + 3 * length code.now ≤ length out.old }
    ensures adds { Adds (rowed code.now p) out.old at out.new result }
    ensures upper_bound { result ≤ at + 127 + 3 * length code.now }
{
    let n = add_code(out, at, code);
    let m = add(out, n, b" ");
    add_place(out, m, p)
}

// The row's code is the first n bytes of the buffer, or all of it.
// Stays: the store's answer has the length alone (Tables:row), and the buffer is the caller's.
fn row_part(out: &mut [u8], code: &[u8], n: usize, p: Place) -> usize
    requires { 127 + 3 * length code.now ≤ length out.old }
    ensures adds { Adds (rowed (take n code.now) p) out.old 0 out.new result }
    ensures upper_bound { result ≤ 127 + 3 * length code.now }
{
    if n <= code.len() {
        return row_text(out, 0, &code[..n], p);
    }
    row_text(out, 0, code, p)
}

fn answer_text(out: &mut [u8], code: &[u8], number: usize, a: Answer) -> usize
    requires { 127 + 3 * length code.now ≤ length out.old }
    ensures adds { Adds (shows code.now number (meaning a)) out.old 0 out.new result }
    ensures upper_bound { result ≤ 127 + 3 * length code.now }
{
    match a {
        Err(r) => refusal_text(out, number, r),
        Ok(Done::Formatted) => add(out, 0, b"ok"),
        Ok(Done::Accepted) => add(out, 0, b"accepted"),
        Ok(Done::New) => add(out, 0, b"new"),
        Ok(Done::Replaced(p)) => replaced_text(out, p),
        Ok(Done::Found(p)) => add_place(out, 0, p),
        Ok(Done::Rows(n)) => add_number(out, 0, n as u64),
        Ok(Done::RowOf(n, p)) => row_part(out, code, n, p),
    }
}

// The answer to the line of that number, as a line at the start of out. Of a row the code is lent beside it.
pub fn answer_line(a: Answer, code: &[u8], number: usize, out: &mut [u8]) -> usize
    requires { 128 + 3 * length code.now ≤ length out.old }
    ensures { Lines (shows code.now number (meaning a)) out.new result }
{
    let n = answer_text(out, code, number, a);
    add(out, n, b"\n")
}

// A row as a line at an index of out.
// Stays: no heap; the caller lends the line, and the next index is all there is to hand on.
pub fn row_line(out: &mut [u8], at: usize, code: &[u8], p: Place) -> usize
    requires { at + 128 + 3 * length code.now ≤ length out.old }
    ensures adds { Adds (rowed code.now p ++ (10 ∷ [])) out.old at out.new result }
    ensures upper_bound { result ≤ at + 128 + 3 * length code.now }
{
    let n = row_text(out, at, code, p);
    add(out, n, b"\n")
}

// A word and a number as a line at the start of out.
pub fn number_line(word: &[u8], n: usize, out: &mut [u8]) -> usize
    requires { 22 + length word.now ≤ length out.old }
    ensures { Lines (word.now ++ (32 ∷ decimal n)) out.new result }
{
    let a = add(out, 0, word);
    let b = add(out, a, b" ");
    let c = add_number(out, b, n as u64);
    add(out, c, b"\n")
}

fn add_fault(out: &mut [u8], word: &[u8], number: usize, text: &[u8]) -> usize
    requires { 28 + (length word.now + length text.now) ≤ length out.old }
    ensures adds { Adds (word.now ++ because number text.now) out.old 0 out.new result }
    ensures upper_bound { result ≤ 28 + (length word.now + length text.now) }
{
    let n = add(out, 0, word);
    add_because(out, n, number, text)
}

fn fault_text(out: &mut [u8], number: usize, f: Fault) -> usize
    requires { 127 ≤ length out.old }
    ensures adds { Adds (faulty number f) out.old 0 out.new result }
    ensures upper_bound { result ≤ 127 }
{
    match f {
        Fault::Word => add_fault(out, b"unknown", number, b"no such command"),
        Fault::Escape => add_fault(out, b"unknown", number, b"% wants two hexadecimal digits"),
        Fault::Range => add_fault(out, b"unknown", number, b"a number is out of range"),
        Fault::Form => add_fault(
            out,
            b"unknown",
            number,
            b"its words are not those of the command",
        ),
        Fault::Long => add_fault(out, b"unknown", number, b"over 4096 bytes"),
        Fault::Filled => add_fault(
            out,
            b"refused",
            number,
            b"the file is not empty, say format N anew",
        ),
        Fault::Room => add_fault(
            out,
            b"refused",
            number,
            b"so large a store wants an empty file and a stack of 80 MB (ulimit -s 81920)",
        ),
    }
}

// Why the line of that number is not obeyed, as a line at the start of out.
pub fn fault_line(f: Fault, number: usize, out: &mut [u8]) -> usize
    requires { 128 ≤ length out.old }
    ensures { Lines (faulty number f) out.new result }
{
    let n = fault_text(out, number, f);
    add(out, n, b"\n")
}
