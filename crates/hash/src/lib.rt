// The hash of a code: FNV-1a, 32 bits. What stands above sees only the promises of `hash`, `hash_part` and `hash_two`.
#![tactic(auto)]

ghost use Rattle.std.specs.Prelude.{◌≡◌, ◌+◌, ◌-◌, ◌*◌, ◌/◌, ◌%◌, ◌^◌, ◌≤◌, length, take, drop};
ghost use Rattle.std.specs.Int.Bits.{bit_xor};
ghost use Rattle.fnv.specs.Fnv.{each};
ghost use Rattle.hash.specs.Fnv.{fnv};
ghost use Rattle.hash.specs.Parts.{PartOf};

// The hashes of two codes.
#[derive(Clone, Copy)]
pub struct Hashes {
    pub first: u32,
    pub second: u32,
}

// The product, keeping the low 32 bits.
fn wrapping_mul(x: u32, y: u32) -> u32
    ensures { result ≡ x * y % 2 ^ 32 }
{
    ((x as u64) * (y as u64) % 4294967296) as u32
}

// One byte: exclusive-or it in, then multiply.
fn step(h: u32, b: u8) -> u32
    ensures { result ≡ bit_xor h b * 16777619 % 2 ^ 32 }
{
    wrapping_mul(h ^ (b as u32), 16777619)
}

// The N bytes from i on, taken in.
fn block<const N: usize>(h: u32, s: &[u8], i: usize) -> u32
    requires { i + N ≤ length s.now }
    ensures { result ≡ each h (take N (drop i s.now)) }
{
    let mut x = h;
    for &b in &s[i..i + N] {
        x = step(x, b);
    }
    x
}

// What is left of n bytes once a multiple of two is taken in: none or one, from i on. This and the next three are parts of each hash: as calls they cost the check 3 %.
#[inline(always)]
fn last_one(h: u32, s: &[u8], i: usize, n: usize) -> u32
    requires { i + n % 2 ≤ length s.now }
    ensures { result ≡ each h (take (n % 2) (drop i s.now)) }
{
    if n % 2 == 0 {
        return h;
    }
    step(h, s[i])
}

// The bytes from i on that n has over a multiple of four, taken in: fewer than four.
// Stays: this and the next two as one function over the number; it hands on where the next bytes begin, which made a check of short codes 2 % slower.
#[inline(always)]
fn last_three(h: u32, s: &[u8], i: usize, n: usize) -> u32
    requires { i + n % 4 ≤ length s.now }
    ensures { result ≡ each h (take (n % 4) (drop i s.now)) }
{
    if n % 4 < 2 {
        return last_one(h, s, i, n);
    }
    let x = block::<2>(h, s, i);
    last_one(x, s, i + 2, n)
}

// The bytes from i on that n has over a multiple of eight, taken in: fewer than eight.
#[inline(always)]
fn last_seven(h: u32, s: &[u8], i: usize, n: usize) -> u32
    requires { i + n % 8 ≤ length s.now }
    ensures { result ≡ each h (take (n % 8) (drop i s.now)) }
{
    if n % 8 < 4 {
        return last_three(h, s, i, n);
    }
    let x = block::<4>(h, s, i);
    last_three(x, s, i + 4, n)
}

// The bytes from i on that n has over a multiple of sixteen, taken in: fewer than sixteen.
#[inline(always)]
fn rest(h: u32, s: &[u8], i: usize, n: usize) -> u32
    requires { i + n % 16 ≤ length s.now }
    ensures { result ≡ each h (take (n % 16) (drop i s.now)) }
{
    if n % 16 < 8 {
        return last_seven(h, s, i, n);
    }
    let x = block::<8>(h, s, i);
    last_seven(x, s, i + 8, n)
}

// The bytes from `from` up to `to`, taken in: sixteen at a time, since a turn of a loop costs as much as a byte, then the odd ones.
fn take_in(h: u32, s: &[u8], from: usize, to: usize) -> u32
    requires { PartOf s.now from to }
    ensures { result ≡ each h (take (to - from) (drop from s.now)) }
{
    let n = to - from;
    let mut x = h;
    for k in 0..n / 16 {
        x = block::<16>(x, s, from + 16 * k);
    }
    rest(x, s, from + n / 16 * 16, n)
}

// The hash of any bytes, of any length: sixteen at a time, then the odd ones.
pub fn hash(code: &[u8]) -> u32
    ensures { result ≡ fnv code.now }
{
    // Stays: as a call of take_in it is six instructions more.
    let n = code.len();
    let mut h = 2166136261;
    for k in 0..n / 16 {
        h = block::<16>(h, code, 16 * k);
    }
    rest(h, code, n / 16 * 16, n)
}

// The hash of the bytes from `from` up to `to`, where they lie. Its body is its own: called at one place, in a loop over the codes of a page, it becomes a part of
// that loop, which `hash`, called at many, does not.
pub fn hash_part(s: &[u8], from: usize, to: usize) -> u32
    requires { PartOf s.now from to }
    ensures { result ≡ fnv (take (to - from) (drop from s.now)) }
{
    let n = to - from;
    let mut y = 2166136261;
    for k in 0..n / 16 {
        y = block::<16>(y, s, from + 16 * k);
    }
    rest(y, s, from + n / 16 * 16, n)
}

// The hashes of two parts, from a up to b and from c up to d, side by side as long as both go on: a byte waits for the product of the one before it, and meanwhile
// the processor works on the other code.
pub fn hash_two(s: &[u8], a: usize, b: usize, c: usize, d: usize) -> Hashes
    requires { PartOf s.now a b × PartOf s.now c d }
    ensures { (result.first ≡ fnv (take (b - a) (drop a s.now))) × (result.second ≡ fnv (take (d - c) (drop c s.now))) }
{
    let turns = (b - a).min(d - c) / 16;
    let mut x = 2166136261;
    let mut y = 2166136261;
    for k in 0..turns {
        x = block::<16>(x, s, a + 16 * k);
        y = block::<16>(y, s, c + 16 * k);
    }
    let i = a + 16 * turns;
    let j = c + 16 * turns;
    // what has no rest is not worth a call
    Hashes {
        first: if i == b { x } else { take_in(x, s, i, b) },
        second: if j == d { y } else { take_in(y, s, j, d) },
    }
}
