// Bytes of a slice: little-endian numbers, eight bytes as one number, copies and shifts, zeros, the byte order of codes, and their folding.
#![tactic(auto)]

ghost use Rattle.std.specs.Prelude.{◌≡◌, ◌↔◌, ◌+◌, ◌*◌, ◌^◌, ◌≤◌, ◌<◌, min, length};
ghost use Rattle.ground.specs.Says.{Says};
ghost use Rattle.ground.specs.Lists.{byte};
ghost use Rattle.words.specs.Le.{le16, le32};
ghost use Rattle.words.specs.Codes.{Ordered};
ghost use Rattle.words.specs.Big.{big};
ghost use Rattle.words.specs.Folds.{fold_byte, fold, Folded};
ghost use Rattle.words.specs.Moves.{Put16, Put32, Wrote, Copied, MovedDown, Span, Cleared, MovableUp, MovedUp};
ghost use Rattle.words.specs.Zeros.{Zero, ZeroFrom, ZeroRun};

use std::cmp::Ordering;

// The eight bytes at k as one number, the first the highest.
#[tactic(auto, unfolding(crate::specs::Big::big))]
pub fn be64(s: &[u8], k: usize) -> usize
    requires { k + 8 ≤ length s.now }
    ensures { result ≡ big 8 s.now k }
{
    usize::from_be_bytes([
        s[k],
        s[k + 1],
        s[k + 2],
        s[k + 3],
        s[k + 4],
        s[k + 5],
        s[k + 6],
        s[k + 7],
    ])
}

// The 16 bits at k.
// Stays: one function for each width, as std has `from_le_bytes` for each; a generic one would need a trait with both for the two to be of.
#[tactic(auto, unfolding(crate::specs::Le::le16))]
pub fn get16(s: &[u8], k: usize) -> usize
    requires { k + 2 ≤ length s.now }
    ensures { (result ≡ le16 s.now k) × (result < 65536) }
{
    u16::from_le_bytes([s[k], s[k + 1]]) as usize
}

// The 32 bits at k.
// Stays: beside get16; see there.
#[tactic(auto, unfolding(crate::specs::Le::le16, crate::specs::Le::le32))]
pub fn get32(s: &[u8], k: usize) -> usize
    requires { k + 4 ≤ length s.now }
    ensures { (result ≡ le32 s.now k) × (result < 4294967296) }
{
    u32::from_le_bytes([s[k], s[k + 1], s[k + 2], s[k + 3]]) as usize
}

// v in the 16 bits at k.
// Stays: one function for each width, as get16 and get32.
#[tactic(auto, unfolding(crate::specs::Le::le16))]
pub fn put16(s: &mut [u8], k: usize, v: usize)
    requires { (k + 2 ≤ length s.old) × (v < 65536) }
    ensures { Put16 s.old k v s.new }
{
    s[k..k + 2].copy_from_slice(&(v as u16).to_le_bytes());
}

// v in the 32 bits at k.
// Stays: beside put16; see there.
#[tactic(auto, unfolding(crate::specs::Le::le16, crate::specs::Le::le32))]
pub fn put32(s: &mut [u8], k: usize, v: usize)
    requires { (k + 4 ≤ length s.old) × (v < 4294967296) }
    ensures { Put32 s.old k v s.new }
{
    s[k..k + 4].copy_from_slice(&(v as u32).to_le_bytes());
}

// src goes to dst at an index.
pub fn copy_at(dst: &mut [u8], at: usize, src: &[u8])
    requires { at + length src.now ≤ length dst.old }
    ensures { Copied dst.old at src.now dst.new }
{
    // Stays: `copy_from_slice` of a length that is not known calls memmove, a name for which the archive for C asks nowhere else.
    for i in 0..src.len() {
        dst[at + i] = src[i];
    }
}

// n bytes move from at + 4 to at.
pub fn move_down(s: &mut [u8], at: usize, n: usize)
    requires { at + n + 4 ≤ length s.old }
    ensures { MovedDown s.old at n s.new }
{
    s.copy_within(at + 4..at + 4 + n, at);
}

// x from a up to b.
pub fn fill(s: &mut [u8], a: usize, b: usize, x: u8)
    requires { (a ≤ b) × (b ≤ length s.old) }
    ensures { Span s.old a b (λ _. x) s.new }
{
    // Stays: `fill` writes the last byte apart; for the eight of a record's mark that is no one store, and 4 instructions more for each row of a check.
    for i in a..b {
        s[i] = x;
    }
}

// Zeros from a up to b.
pub fn clear(s: &mut [u8], a: usize, b: usize)
    requires { (a ≤ b) × (b ≤ length s.old) }
    ensures { Cleared s.old a b s.new }
{
    fill(s, a, b, 0);
}

// What stands four below goes to a up to b, from the end.
pub fn move_up(s: &mut [u8], a: usize, b: usize)
    requires { MovableUp s.old a b }
    ensures { MovedUp s.old a b s.new }
{
    s.copy_within(a - 4..b - 4, a);
}

// Whether no byte has a bit. No way out before the end, so that it vectorises; of a block of known length, without a rest.
fn no_bit(s: &[u8]) -> bool
    ensures { Says result (Zero s.now) }
{
    let mut acc = 0;
    for &x in s {
        acc |= x;
    }
    acc == 0
}

// Where the blocks of 1,024 zeros from a on end.
pub fn zeros_end(s: &[u8], a: usize) -> usize
    requires { a ≤ length s.now }
    ensures { ZeroRun s.now a result }
{
    let blocks = (s.len() - a) / 1024;
    for k in 0..blocks {
        let b = a + 1024 * k;
        if !no_bit(&s[b..b + 1024]) {
            return b;
        }
    }
    a + 1024 * blocks
}

// Whether every byte is zero: block by block, then the rest.
pub fn all_zero(s: &[u8]) -> bool
    ensures { Says result (Zero s.now) }
{
    no_bit(&s[zeros_end(s, 0)..])
}

// Two codes in byte order: unsigned, a shorter code before its extensions.
pub fn compare(a: &[u8], b: &[u8]) -> Ordering
    ensures { Ordered a.now b.now result }
{
    // Stays: `a.cmp(b)` is 35 instructions, not 22, where the first bytes differ, as in the check of a page they mostly do; `zip` asks at each byte whether either ends, a sixth of a check of codes that begin alike.
    for i in 0..a.len().min(b.len()) {
        let x = a[i];
        let y = b[i];
        if x != y {
            return x.cmp(&y);
        }
    }
    a.len().cmp(&b.len())
}

// Two codes of eight bytes or more, by eight bytes as one number; the last eight of the shorter may begin among those before.
fn by_eights(a: &[u8], b: &[u8]) -> Ordering
    requires { (8 ≤ length a.now) × (8 ≤ length b.now) }
    ensures { Ordered a.now b.now result }
{
    // Stays: `a.cmp(b)` is 73 instructions, not 39, for codes of 14 bytes that differ in the last, 153, not 111, for 64.
    let last = a.len().min(b.len()) - 8;
    for i in (0..last).step_by(8) {
        let v = be64(a, i);
        let w = be64(b, i);
        if v != w {
            return v.cmp(&w);
        }
    }
    let v = be64(a, last);
    let w = be64(b, last);
    if v != w {
        return v.cmp(&w);
    }
    a.len().cmp(&b.len())
}

// The same as `compare`, for codes that begin alike: in fewer steps where both are long.
pub fn compare_alike(a: &[u8], b: &[u8]) -> Ordering
    ensures { Ordered a.now b.now result }
{
    if a.len().min(b.len()) < 8 {
        return compare(a, b);
    }
    by_eights(a, b)
}

// How far a byte lies above 0x41, round 256: below 26 for 0x41 to 0x5A, and for no other.
pub fn letter(x: u8) -> u8
    ensures { (26 ≤ result) ↔ (fold_byte x ≡ x) }
{
    x.wrapping_sub(0x41)
}

// The smaller of two bytes.
pub fn lesser(x: u8, y: u8) -> u8
    ensures { result ≡ min x y }
{
    x.min(y)
}

// What is added to a byte where it is folded: 0x20 to one from 0x41 to 0x5A.
fn shift(x: u8) -> u8
    ensures { (x + result ≡ fold_byte x) × (x + result < 256) }
{
    // Stays: the must-fail edits at_sign_folded, bracket_folded and capital_z_kept move these bounds, which `to_ascii_lowercase` has within.
    if x < 0x41 {
        return 0;
    }
    if 0x5A < x {
        return 0;
    }
    0x20
}

// A byte from 0x41 to 0x5A becomes one from 0x61 to 0x7A.
fn fold_byte(x: u8) -> u8
    ensures { result ≡ fold_byte x }
{
    x + shift(x)
}

// The eight bytes of src from a on, folded, go to dst at the same index. A fixed number of turns, so that it is a few steps.
fn fold_eight(dst: &mut [u8], src: &[u8], a: usize)
    requires { (a + 8 ≤ length src.now) × (length src.now ≤ length dst.old) }
    ensures { Wrote dst.old a 8 (λ j. byte (fold src.now) (a + j)) dst.new }
{
    let mut e = [0u8; 8];
    for i in 0..8 {
        e[i] = fold_byte(src[a + i]);
    }
    // Stays: with `copy_from_slice` here a code of 20 bytes takes 75 instructions, not 65, and one of 64 takes 406, not 130.
    for i in 0..8 {
        dst[a + i] = e[i];
    }
}

// All bytes folded, one by one.
fn fold_each(dst: &mut [u8], src: &[u8])
    requires { length src.now ≤ length dst.old }
    ensures { Copied dst.old 0 (fold src.now) dst.new }
{
    for i in 0..src.len() {
        dst[i] = fold_byte(src[i]);
    }
}

// The code src, folded, goes to the start of dst, eight bytes at a time; the last eight may begin among those before.
pub fn fold_code(dst: &mut [u8], src: &[u8])
    requires { length src.now ≤ length dst.old }
    ensures { Copied dst.old 0 (fold src.now) dst.new }
{
    if src.len() < 8 {
        fold_each(dst, src);
        return;
    }
    fold_eight(dst, src, 0);
    let last = src.len() - 8;
    for i in (8..last).step_by(8) {
        fold_eight(dst, src, i);
    }
    fold_eight(dst, src, last);
}

// Whether a code has no capital.
pub fn folded(s: &[u8]) -> bool
    ensures { Says result (Folded s.now) }
{
    s.iter().all(|&x| !x.is_ascii_uppercase())
}
