// Case 11, and histories through a deep split, a full store, a crowded prefix, a join over levels, emptied buckets and fragmented pages.
// Rows go in and out only as long as the check accepts after each step.
ghost use Rattle.std.specs.Prelude.{◌≡◌, ◌≤◌, length};

use super::answers::{REFUSALS, say_number, say_place};
use super::show::{digits, part};

// How many numbers a kind's codes are sought among: more than any case needs.
const NUMBERS: u32 = 2097152;

// Codes of one length, 2 to 64 bytes, without a capital, whose hashes begin with these bits.
#[derive(Clone, Copy)]
pub struct Kind {
    pub len: usize,
    pub bits: u32,
    pub value: u64,
    ghost fits: { (len ≤ 64) × (bits ≤ 12) },
}

impl Kind {
    pub fn new(len: usize, bits: u32, value: u64) -> Kind
        requires { (len ≤ 64) × (bits ≤ 12) }
    {
        Kind { len, bits, value }
    }

    // Whether code number i is of the kind.
    fn has(self, i: u32) -> bool {
        let code = code_of(i);
        let code = &code[..self.len];
        words::folded(code) && partition::top_bits(hash::hash(code), self.bits) == self.value
    }

    // The number of the kind's code n, counted from 0.
    fn number(self, n: usize) -> u32 {
        (0..NUMBERS)
            .filter(|i| self.has(*i))
            .nth(n)
            .unwrap_or(NUMBERS)
    }
}

// Code number i of every length: two bytes that count, one that counts on from a letter, then letters.
fn code_of(i: u32) -> [u8; 64] {
    let mut code = [b'x'; 64];
    let number = i.to_le_bytes();
    code[0] = number[0];
    code[1] = number[1];
    code[2] = b'x'.wrapping_add(number[2]);
    code
}

// Puts the row of the kind's code number i by a mode.
// Stays: the mode is the number that the C header has.
fn put_code(store: &mut [u8], kind: Kind, i: u32, mode: u64) -> u64 {
    lots_c::lots_put(store, &code_of(i)[..kind.len], 1, 2, 3, mode)
}

// Puts the kind's row n by a mode.
// Stays: the mode is the number that the C header has; a history puts several kinds into one store, so that these two are no one value.
fn put_as(store: &mut [u8], kind: Kind, n: usize, mode: u64) -> u64 {
    put_code(store, kind, kind.number(n), mode)
}

// Puts it, whether it is new or known.
pub fn put(store: &mut [u8], kind: Kind, n: usize) -> u64 {
    put_as(store, kind, n, 0)
}

// Removes it.
pub fn remove(store: &mut [u8], kind: Kind, n: usize) -> u64 {
    lots_c::lots_remove(store, &code_of(kind.number(n))[..kind.len])
}

// Whether a call was obeyed and the check accepts what it left.
fn went_well(store: &[u8], word: u64) -> bool {
    word < REFUSALS && lots_c::lots_check(store) == 0
}

// Puts the kind's first rows; how many of them went well.
pub fn put_all(store: &mut [u8], kind: Kind, many: usize) -> u64 {
    let numbers = (0..NUMBERS).filter(|i| kind.has(*i)).take(many);
    for (n, i) in numbers.enumerate() {
        let word = put_code(store, kind, i, 0);
        if !went_well(store, word) {
            return n as u64;
        }
    }
    many as u64
}

// Removes them.
fn remove_all(store: &mut [u8], kind: Kind, many: usize) -> u64 {
    for n in 0..many {
        let word = remove(store, kind, n);
        if !went_well(store, word) {
            return n as u64;
        }
    }
    many as u64
}

// The header of each page from 2 on, the rows, and what the check says.
pub fn say<R: Print>(rt: &R, store: &[u8]) {
    headers(rt, store);
    say_number(rt, "rows:", lots_c::lots_count(store));
    say_number(rt, "check:", lots_c::lots_check(store));
}

// The page size that the number at 20 stands for.
pub fn page_size(store: &[u8]) -> usize
    ensures { (1 ≤ result) × (result ≤ 16384) }
{
    if store.len() < 24 {
        return 1024;
    }
    8 + partition::shape_of(store).capacity
}

fn headers<R: Print>(rt: &R, store: &[u8]) {
    for page in store.chunks(page_size(store)).skip(2) {
        digits(rt, part(page, 0, 8));
    }
}

// A 14th row and one of the 13, where only a new code or only a known one is expected.
fn by_mode<R: Print>(rt: &R, store: &mut [u8], kind: Kind) {
    for (asked, n, mode) in [
        ("a 14th, only if new:", 13, 1),
        ("a 14th, only if known:", 13, 2),
        ("on one of the 13, only if new:", 5, 1),
        ("on one of the 13, only if known:", 5, 2),
    ] {
        say_place(rt, asked, put_as(store, kind, n, mode));
    }
}

// Case 11 in 3 pages: 13 rows of one kind, and what is refused then.
// Stays: named by the case of document 01, another one than case_10 in main.rt.
fn case_11<R: Print>(rt: &R, store: &mut [u8], kind: Kind) {
    say_number(rt, "format:", lots_c::lots_format(store, 1024));
    say_number(rt, "rows put:", put_all(store, kind, 13));
    say_place(rt, "a 14th:", put(store, kind, 13));
    say_place(rt, "on one of the 13:", put(store, kind, 5));
    by_mode(rt, store, kind);
    say(rt, store);
}

// Case 11, where not all share 8 bits: rows of 64-byte codes.
pub fn full<R: Print>(rt: &R, store: &mut [u8]) {
    let _ = println!(rt; "case 11, full store");
    case_11(rt, store, Kind::new(64, 0, 0));
}

// Case 11, where all share 8 bits.
pub fn crowded<R: Print>(rt: &R, store: &mut [u8]) {
    let _ = println!(rt; "case 11, crowded prefix");
    case_11(rt, store, Kind::new(64, 8, 90));
}

// A row at 1, one at 01 and so on, the last at as many bits as this; how many went well.
pub fn put_ladder(store: &mut [u8], deepest: u32) -> u64
    requires { deepest ≤ 12 }
{
    for bits in 1..=deepest {
        let word = put(store, Kind::new(2, bits, 1), 0);
        if !went_well(store, word) {
            return 0;
        }
    }
    u64::from(deepest)
}

// In 9 pages rows as in case 9, with codes of 2 and 3 bytes: one long code more, and seven buckets take all pages.
pub fn deep_split<R: Print>(rt: &R, store: &mut [u8]) {
    let _ = println!(rt; "deep split");
    let short = Kind::new(3, 6, 0);
    let long = Kind::new(64, 6, 0);
    say_number(rt, "format:", lots_c::lots_format(store, 1024));
    say_number(rt, "rows put at 1, 01 to 000001:", put_ladder(store, 6));
    say_number(rt, "rows put at 000000:", put_all(store, short, 62));
    say(rt, store);
    say_place(rt, "a long one there:", put(store, long, 0));
    say(rt, store);
}

// The seven buckets join over six levels when the long code goes.
pub fn deep_join<R: Print>(rt: &R, store: &mut [u8]) {
    let _ = println!(rt; "join over levels");
    let first = Kind::new(64, 1, 1);
    let long = Kind::new(64, 6, 0);
    say_number(
        rt,
        "long rows put at 1, as far as they go:",
        put_all(store, first, 20),
    );
    say_place(rt, "the next:", put(store, first, 13));
    say_number(rt, "removed:", remove_all(store, first, 13));
    say(rt, store);
    say_place(
        rt,
        "the long one at 000000 removed:",
        remove(store, long, 0),
    );
    say(rt, store);
}

// In 3 pages a hole before the frontier: the page is packed, not split.
pub fn fragmented<R: Print>(rt: &R, store: &mut [u8]) {
    let _ = println!(rt; "fragmented page");
    let any = Kind::new(64, 0, 0);
    say_number(rt, "format:", lots_c::lots_format(store, 1024));
    say_number(rt, "rows put:", put_all(store, any, 13));
    say_place(rt, "the first removed:", remove(store, any, 0));
    say(rt, store);
    say_place(rt, "a 14th:", put(store, any, 13));
    say(rt, store);
}

// In 3 pages a hole of 72 bytes before 12 records, and room of 32 at the frontier: one row more of this kind, then where the records are.
fn beside_hole<R: Print>(rt: &R, store: &mut [u8], kind: Kind) {
    let any = Kind::new(64, 0, 0);
    say_number(rt, "format:", lots_c::lots_format(store, 1024));
    say_number(rt, "rows put:", put_all(store, any, 13));
    say_place(rt, "the first removed:", remove(store, any, 0));
    say(rt, store);
    say_place(rt, "one more:", put(store, kind, 13));
    say(rt, store);
    digits(rt, part(store, 3020, 3072));
}

// A need of 32 goes at the frontier; for 33 the page is packed first.
pub fn room<R: Print>(rt: &R, store: &mut [u8]) {
    let _ = println!(rt; "room for exactly a row");
    beside_hole(rt, store, Kind::new(20, 0, 0));
    let _ = println!(rt; "room a byte less than a row");
    beside_hole(rt, store, Kind::new(21, 0, 0));
}

// In 5 pages a bucket of one row loses it and joins its sibling (case 8).
pub fn joined<R: Print>(rt: &R, store: &mut [u8]) {
    let _ = println!(rt; "emptied bucket, joined");
    let left = Kind::new(64, 2, 0);
    let right = Kind::new(64, 2, 1);
    say_number(rt, "format:", lots_c::lots_format(store, 1024));
    say_number(rt, "rows put at 00:", put_all(store, left, 13));
    say_place(rt, "one at 01:", put(store, right, 0));
    say(rt, store);
    say_place(rt, "removed:", remove(store, right, 0));
    say(rt, store);
}

// A bucket of one row loses it with nothing to join: its page is cleared, and taken again.
pub fn cleared<R: Print>(rt: &R, store: &mut [u8]) {
    let _ = println!(rt; "emptied bucket, cleared");
    let right = Kind::new(64, 2, 1);
    let other = Kind::new(64, 1, 1);
    say_place(rt, "one at 1:", put(store, other, 0));
    say_number(rt, "rows put at 01:", put_all(store, right, 13));
    say(rt, store);
    say_place(rt, "the one at 1 removed:", remove(store, other, 0));
    say(rt, store);
    say_place(rt, "and put again:", put(store, other, 0));
    say(rt, store);
}
