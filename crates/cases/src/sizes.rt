// Pages of 4,096 and of 16,384 bytes: case 10 in them, what page 0 says of the size, and a split down to the deepest depth, where one row more is refused.
ghost use Rattle.std.specs.Prelude.{◌≤◌, ◌<◌};

use super::answers::{say_number, say_place};
use super::history;
use super::history::Kind;
use super::show::{digits, lines, part};

// A page size: how many rows of 64-byte codes a page has room for, and the other sizes' second byte of the number at 20.
#[derive(Clone, Copy)]
struct Size {
    bytes: u64,
    deepest: u32,
    rows: usize,
    others: [(&'static str, u8); 2],
    ghost fits: { deepest ≤ 12 },
}

// "a" with place (7, 2, 0), as in case 10.
fn one_row<R: Print>(rt: &R, store: &mut [u8], size: u64) {
    say_number(rt, "format:", lots_c::lots_format(store, size));
    say_place(rt, "put a:", lots_c::lots_put(store, b"a", 7, 2, 0, 0));
    lines(rt, store);
    say_number(rt, "check:", lots_c::lots_check(store));
}

// Another number at 20, by its second byte.
fn numbered<R: Print>(rt: &R, asked: &str, store: &mut [u8], second: u8) {
    if store.len() < 24 {
        return;
    }
    store[21] = second;
    say_number(rt, asked, lots_c::lots_check(store));
}

// How many 32-bit numbers are not 0.
fn not_zero(entries: &[u8]) -> usize {
    entries
        .chunks_exact(4)
        .filter(|entry| !words::all_zero(entry))
        .count()
}

// The numbers of page 0, how many entries name a page, then as of every store.
fn say<R: Print>(rt: &R, store: &[u8]) {
    let size = history::page_size(store);
    digits(rt, part(store, 0, 24));
    say_number(
        rt,
        "entries that name a page:",
        not_zero(part(store, size, 2 * size)) as u64,
    );
    history::say(rt, store);
}

// Of 64-byte codes at the deepest depth's zeros as many as fit; one at their sibling, and the two part at that depth. One more at the zeros is refused.
fn split<R: Print>(rt: &R, store: &mut [u8], size: &Size) {
    let zeros = Kind::new(64, size.deepest, 0);
    let sibling = Kind::new(64, size.deepest, 1);
    let other = Kind::new(63, size.deepest, 0);
    say_number(rt, "format:", lots_c::lots_format(store, size.bytes));
    say_number(
        rt,
        "rows put at zeros:",
        history::put_all(store, zeros, size.rows),
    );
    say(rt, store);
    say_place(rt, "one at the sibling:", history::put(store, sibling, 0));
    say(rt, store);
    say_place(rt, "one more at zeros:", history::put(store, other, 0));
}

// A row at 1, one at 01 and so on: each depth has its bucket and each entry its page. One of the zeros less, and some of them join.
fn fill<R: Print>(rt: &R, store: &mut [u8], size: &Size) {
    let zeros = Kind::new(64, size.deepest, 0);
    let rows = history::put_ladder(store, size.deepest);
    say_number(rt, "rows put at 1, 01 and so on:", rows);
    say(rt, store);
    let removed = history::remove(store, zeros, 0);
    say_place(rt, "the first at zeros removed:", removed);
    say(rt, store);
}

// Room for a store, whatever it held.
fn untouched<const N: usize>() -> [u8; N] {
    [0xAA; N]
}

// In three pages, then in as many as the deepest split takes: so many bytes.
fn of<R: Print, const THREE: usize, const STORE: usize>(rt: &R, size: &Size)
    requires { (THREE < 9223372036854775808) × (STORE < 9223372036854775808) }
{
    let mut three = untouched::<THREE>();
    let mut store = untouched::<STORE>();
    let bytes = size.bytes;
    let _ = println!(rt; "pages of {bytes} bytes");
    one_row(rt, &mut three, size.bytes);
    for (asked, second) in size.others {
        numbered(rt, asked, &mut three, second);
    }
    split(rt, &mut store, size);
    fill(rt, &mut store, size);
}

pub fn larger<R: Print>(rt: &R) {
    of::<R, 12288, 53248>(
        rt,
        &Size {
            bytes: 4096,
            deepest: 10,
            rows: 53,
            others: [("check, 1024 at 20:", 4), ("check, 16384 at 20:", 64)],
        },
    );
    of::<R, 49152, 245760>(
        rt,
        &Size {
            bytes: 16384,
            deepest: 12,
            rows: 215,
            others: [("check, 1024 at 20:", 4), ("check, 4096 at 20:", 16)],
        },
    );
}
