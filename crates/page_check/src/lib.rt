// Whether bytes are a bucket page: the rules of its bytes by page_ok, the shared bits of its hashes slot by slot.
#![tactic(auto)]

ghost use Rattle.std.specs.Prelude.{◌≡◌, true, MatchOption, ◌↔◌, ◌+◌, ◌*◌, ◌-◌, ◌/◌, ◌%◌, ◌^◌, ◌≤◌, ◌<◌, length};
ghost use Rattle.std.specs.Int.Bits.{bit_xor};
ghost use Rattle.ground.specs.Says.{Says};
ghost use Rattle.ground.specs.Lists.{part};
ghost use Rattle.words.specs.Codes.{Before};
ghost use Rattle.words.specs.Zeros.{Zero, ZeroFrom};
ghost use Rattle.hash.specs.Fnv.{fnv};
ghost use Rattle.partition.specs.Bits.{top};
ghost use Rattle.page.specs.Page.{BucketPage, depth, count, off, len, code};
ghost use Rattle.page_check.specs.Rules.{HeadOk, NaturalAt, NoSign, SlotsOk, off_of, slot_of, prior, Preceded, Codes};
ghost use Rattle.page_check.specs.Table.{Table, HeadKnown, Tabled, Inside, Laid, Pair, Turn, LeadOver, NextTold};
ghost use Rattle.page_check.specs.Marks.{Marked, NoCapital, Halves};
ghost use Rattle.page_check.specs.Leads.{Stretch, Led};
ghost use Rattle.page_check.specs.Shared.{PageOk, FirstHash, LentTable, AllShare, Share, Keeps, NearUpTo};

use hash::Hashes;
use page::Extent;

// A slot's word above its 14 bits of offset: a record's length, with the 1 that stands above that.
// The lengths of the shortest record, of the shortest with eight bytes of code and of the longest are so:
const SHORTEST: usize = 0x4000 + 9;

const WITH_EIGHT: usize = 0x4000 + 16;

const LONGEST: usize = 0x4000 + 72;

// The word of a record with an empty code.
const NO_CODE: usize = 8 * 0x4000;

// The sign bits of a place's three parts in its eight bytes as one number.
const PAGE_SIGN: usize = 0x8000_0000;

const SLOT_SIGN: usize = 0x8000_0000_0000;

const VOLUME_SIGN: usize = 0x8000_0000_0000_0000;

// Size, byte 0, row count, and a frontier that leaves room for a record and for the slots.
fn head_ok(page: &[u8]) -> bool
    ensures { Says result (HeadOk page.now) }
{
    let size = page.len();
    if size < 16 {
        return false;
    }
    let n = words::get16(page, 2);
    let f = words::get16(page, 4);
    size <= 16384 && page[0] == 1 && 1 <= n && 17 <= f && f + 4 * n <= size
}

// The eight bytes at k as one number, the first the lowest.
fn le64(s: &[u8], k: usize) -> usize
    requires { k + 8 ≤ length s.now }
    ensures signs { NoSign result ↔ NaturalAt s.now k }
    ensures zero { (result ≡ 0) ↔ ZeroFrom s.now k (k + 8) }
{
    usize::from_le_bytes([
        s[k],
        s[k + 1],
        s[k + 2],
        s[k + 3],
        s[k + 4],
        s[k + 5],
        s[k + 6],
        s[k + 7],
    ])
}

// The word of the slot before the one at k; before the first, that of an empty code.
fn word_before(page: &[u8], k: usize) -> usize
    requires { Preceded page.now k }
    ensures { Codes page.now result (prior page.now (slot_of page.now k)) }
{
    if page.len() <= k + 4 {
        return NO_CODE;
    }
    words::get32(page, k + 4)
}

// Whether the code before the slot at k comes before the one from x up to y.
fn rises(page: &[u8], k: usize, x: usize, y: usize) -> bool
    requires { Pair page.now k x y }
    ensures { Says result (Before (prior page.now (slot_of page.now k)) (part page.now x (y - x))) }
{
    let v = word_before(page, k);
    let a = v % 16384 + 8;
    let b = v % 16384 + v / 16384 % 16384;
    words::compare(&page[a..b], &page[x..y]).is_lt()
}

// What tells of the code from x up to y: its first eight bytes as one number, or the greatest number, which tells nothing.
fn lead_of(page: &[u8], x: usize, y: usize) -> usize
    requires { Stretch page.now x y }
    ensures { Led page.now (part page.now x (y - x)) result }
{
    if y - x < 8 {
        return usize::MAX;
    }
    words::be64(page, x)
}

// The slot at k by comparing its code with the one before: what tells of it, if its word w breaks no rule.
fn compared(page: &[u8], k: usize, w: usize) -> Option<usize>
    requires { Preceded page.now k × (off_of w + w / 16384 ≤ length page.now + 16384) }
    ensures { NextTold page.now (length page.now) (slot_of page.now k) w result }
{
    let t = w / 0x4000;
    if t < SHORTEST || LONGEST < t {
        return None;
    }
    let x = w % 0x4000 + 8;
    let y = w % 0x4000 + (t - 0x4000);
    if !rises(page, k, x, y) {
        return None;
    }
    Some(lead_of(page, x, y))
}

// The first eight bytes of w's code as one number, where it has so many and they are above lead. The length, with the 1 above it, is tested in one look.
fn lead_over(page: &[u8], lead: usize, w: usize) -> Option<usize>
    requires { off_of w + w / 16384 ≤ length page.now + 16384 }
    ensures { MatchOption result (Unit {0}) (λ r. LeadOver page.now lead w r) }
{
    let t = w / 0x4000;
    if t < WITH_EIGHT || LONGEST < t {
        return None;
    }
    let next = words::be64(page, w % 0x4000 + 8);
    if next <= lead {
        return None;
    }
    Some(next)
}

// What tells of the code of the slot at k, whose word is w, after one of which lead tells; none where it breaks a rule. Only where the first eight bytes do not tell are codes compared.
fn next_lead(page: &[u8], f: usize, k: usize, lead: usize, w: usize) -> Option<usize>
    requires { Turn page.now f k lead }
    ensures { NextTold page.now f (slot_of page.now k) w result }
{
    if f + 0x4000 < w % 0x4000 + w / 0x4000 {
        return None;
    }
    match lead_over(page, lead, w) {
        Some(next) => Some(next),
        None => compared(page, k, w),
    }
}

// The slots with their records, in one pass; lead tells of the code before.
// Each length is entered at its record's start: two that start at one byte have one entry, so that the walk meets too few.
fn slots_ok(page: &[u8], tab: &mut [u8], n: usize, f: usize) -> bool
    requires { HeadKnown page.now tab.old n f }
    ensures says { Says result (SlotsOk page.now) }
    ensures entered { result ≡ true → Table page.now n f tab.new }
    ensures inside { Inside f tab.new }
{
    let end = page.len() - 4 * n;
    let mut k = page.len();
    let mut lead = 0;
    let mut lens = 0;
    // Stays: tried as a `for` over the slots' numbers; 3 more instructions a slot, 2 % more of a full store's check.
    while end < k {
        k -= 4;
        let w = words::get32(page, k);
        match next_lead(page, f, k, lead, w) {
            Some(next) => lead = next,
            None => return false,
        }
        tab[w % 0x4000] = (w / 0x4000 % 256) as u8;
        lens += w / 0x4000;
    }
    words::get16(page, 6) + 8 + lens == page.len() + 16380 * n
}

// Whether none of the three sign bits is set.
fn no_sign(w: usize) -> bool
    ensures { Says result (NoSign w) }
{
    w / PAGE_SIGN % 2 == 0 && w / SLOT_SIGN % 2 == 0 && w / VOLUME_SIGN % 2 == 0
}

// From 8 to the frontier by the table: over each record that is met, its place or-ed and marked in the table, and the bytes of none or-ed; gap is where the last of these ends.
// Met records lie apart; that all n are met, those bytes are zero and none of them is the last before f is that the records are laid well.
fn walk(page: &[u8], tab: &mut [u8], n: usize, f: usize) -> bool
    requires { Tabled page.now tab.old n f }
    ensures says { Says result (Laid page.now n f) }
    ensures marked { result ≡ true → Marked page.now n tab.new }
    ensures inside { Inside f tab.new }
{
    let mut pos = 8;
    let mut gap = 8;
    let mut met = 0;
    let mut acc: u8 = 0;
    let mut signs = 0;
    // Stays: a turn goes on by one byte or by a whole record, which no iterator of the library does.
    while pos < f {
        let l = tab[pos] as usize;
        if l == 0 {
            acc |= page[pos];
            pos += 1;
            gap = pos;
            continue;
        }
        signs |= le64(page, pos);
        words::fill(tab, pos, pos + 8, 255);
        pos += l;
        met += 1;
    }
    if acc != 0 || met != n || f <= gap {
        return false;
    }
    no_sign(signs)
}

// Whether the bytes from a up to b are zero, where they are few.
fn each_zero(page: &[u8], a: usize, b: usize) -> bool
    requires { Stretch page.now a b }
    ensures { Says result (ZeroFrom page.now a b) }
{
    words::all_zero(&page[a..b])
}

// Whether the 8 h bytes from a on and those from b on are zero. No way out before the end, so that it vectorises; two stretches at once, so that a turn has more of them.
fn both_zero(page: &[u8], a: usize, b: usize, h: usize) -> bool
    requires { (a + 8 * h ≤ length page.now) × (b + 8 * h ≤ length page.now) }
    ensures { Says result (ZeroFrom page.now a (a + 8 * h) × ZeroFrom page.now b (b + 8 * h)) }
{
    let mut acc = 0;
    for i in 0..h {
        acc |= le64(page, a + 8 * i);
        acc |= le64(page, b + 8 * i);
    }
    acc == 0
}

// Whether the bytes from a up to b are zero: in two stretches of whole turns of 32 bytes, which overlap, so that there is no rest.
fn zeros(page: &[u8], a: usize, b: usize) -> bool
    requires { Stretch page.now a b × (b ≤ 16384) }
    ensures { Says result (ZeroFrom page.now a b) }
{
    let turns = (b - a + 63) / 64;
    if b < a + 32 * turns {
        return each_zero(page, a, b);
    }
    both_zero(page, a, b - 32 * turns, 4 * turns)
}

// Whether none of the h bytes from 8 on and of the h bytes from d on is a capital, but for those that are marked. As both_zero.
fn both_small(page: &[u8], tab: &[u8], d: usize, h: usize) -> bool
    requires { Halves page.now tab.now d h }
    ensures { Says result (NoCapital page.now tab.now 8 (8 + h) × NoCapital page.now tab.now d (d + h)) }
{
    let mut low: u8 = 255;
    for k in 0..h {
        low = words::lesser(low, words::letter(page[8 + k] | tab[8 + k]));
        low = words::lesser(low, words::letter(page[d + k] | tab[d + k]));
    }
    26 <= low
}

// Whether no byte from 8 up to f is a capital, but for those that are marked. Stretches as in zeros.
fn no_capital(page: &[u8], tab: &[u8], f: usize) -> bool
    requires { Stretch page.now 8 f × (length tab.now ≡ length page.now) }
    ensures { Says result (NoCapital page.now tab.now 8 f) }
{
    let h = (f + 55) / 64 * 32;
    if f < 8 + h {
        return both_small(page, tab, 8, f - 8);
    }
    both_small(page, tab, f - h, h)
}

// The rules after the header, of n rows and frontier f.
fn records_ok(page: &[u8], tab: &mut [u8], n: usize, f: usize) -> bool
    requires { HeadKnown page.now tab.old n f }
    ensures says { Says result (PageOk page.now) }
    ensures inside { Inside f tab.new }
{
    slots_ok(page, tab, n, f)
        && walk(page, tab, n, f)
        && zeros(page, f, page.len() - 4 * n)
        && no_capital(page, tab, f)
}

// Whether the page keeps the rules of a bucket page (but for the hashes' shared bits). tab is scratch of the page's length, zero before and after.
pub fn page_ok(page: &[u8], tab: &mut [u8]) -> bool
    requires { (length tab.old ≡ length page.now) × Zero tab.old }
    ensures says { Says result (PageOk page.now) }
    ensures zero { Zero tab.new }
{
    if !head_ok(page) {
        return false;
    }
    let n = words::get16(page, 2);
    let f = words::get16(page, 4);
    let ok = records_ok(page, tab, n, f);
    words::clear(tab, 0, f);
    ok
}

// Slot i's record.
fn record_of(page: &[u8], i: usize) -> Extent
    requires { BucketPage page.now × (i < count page.now) }
    ensures { (result.off ≡ off page.now i) × (result.len ≡ len page.now i) }
{
    let w = words::get32(page, page.len() - 4 * (i + 1));
    Extent {
        off: w % 0x4000,
        len: w / 0x4000 - 0x4000,
    }
}

// The hash of slot i's code.
pub fn hash_slot(page: &[u8], i: usize) -> u32
    requires { BucketPage page.now × (i < count page.now) }
    ensures { result ≡ fnv (code page.now i) }
{
    hash::hash(page::code_at(page, i))
}

// The hash of slot i's code where it lies: in the check's loop over the slots, its one caller, it becomes a part of the loop.
pub fn hash_in_place(page: &[u8], i: usize) -> u32
    requires { BucketPage page.now × (i < count page.now) }
    ensures { result ≡ fnv (code page.now i) }
{
    let r = record_of(page, i);
    hash::hash_part(page, r.off + 8, r.off + r.len)
}

// The hashes of the codes of slots i and i + 1.
fn hash_pair(page: &[u8], i: usize) -> Hashes
    requires { BucketPage page.now × (i + 1 < count page.now) }
    ensures { (result.first ≡ fnv (code page.now i)) × (result.second ≡ fnv (code page.now (i + 1))) }
{
    let r = record_of(page, i);
    let q = record_of(page, i + 1);
    hash::hash_two(page, r.off + 8, r.off + r.len, q.off + 8, q.off + q.len)
}

// Whether two hashes have the same prefix of k bits.
pub fn shares(first: u32, x: u32, k: u8) -> bool
    requires { k ≤ 32 }
    ensures { Says result (top k first ≡ top k x) }
{
    (k as u32) <= partition::shared_bits(first, x)
}

// What the difference of two hashes stays below where they share k bits.
pub fn share_limit(k: u8) -> u64
    requires { k ≤ 32 }
    ensures { result ≡ 2 ^ (32 - k) }
{
    0x1_0000_0000u64 >> (k as u32)
}

// Whether the difference of two hashes is below m: where m is a limit worked out once, cheaper than to count the bits they share.
pub fn differ_below(first: u32, x: u32, m: u64) -> bool
    ensures { Says result (bit_xor first x < m) }
{
    ((first ^ x) as u64) < m
}

// Whether two hashes both differ from the first by less than m.
fn both_below(first: u32, two: Hashes, m: u64) -> bool
    ensures { Says result ((bit_xor first two.first < m) × (bit_xor first two.second < m)) }
{
    differ_below(first, two.first, m) && differ_below(first, two.second, m)
}

// How far from slot 1 on the hashes differ from the first by less than m, two slots at a time.
fn near_by_twos(page: &[u8], first: u32, m: u64) -> usize
    requires { BucketPage page.now }
    ensures { NearUpTo page.now first m result }
{
    let n = words::get16(page, 2);
    let mut i = 1;
    // Stays: the slot after the last pair is the answer, which a range by steps of two does not give.
    while i + 1 < n {
        if !both_below(first, hash_pair(page, i), m) {
            return i;
        }
        i += 2;
    }
    i
}

// The slots whose hashes are near the first, two by two, where that pays: where the records, which lie before the frontier, have 48 bytes or more on the whole, and so the codes 40. Else 1: no slot is looked at.
pub fn near_where_long(page: &[u8], first: u32, m: u64) -> usize
    requires { BucketPage page.now }
    ensures { NearUpTo page.now first m result }
{
    if words::get16(page, 4) < 48 * words::get16(page, 2) {
        return 1;
    }
    near_by_twos(page, first, m)
}

// Whether the hashes of a bucket page, the first of them given, share their first k bits: their differences or-ed have none there.
fn alike(page: &[u8], first: u32, k: u8) -> bool
    requires { FirstHash page.now first k }
    ensures { Says result (AllShare fnv page.now k) }
{
    let n = words::get16(page, 2);
    let mut acc: u32 = 0;
    for i in near_by_twos(page, first, share_limit(k))..n {
        acc |= first ^ hash_slot(page, i);
    }
    shares(0, acc, k)
}

// Whether the hashes of a bucket page share the first local-depth bits.
pub fn share_ok(page: &[u8]) -> bool
    requires { BucketPage page.now × (depth page.now ≤ 32) }
    ensures { Says result (Share fnv page.now) }
{
    alike(page, hash_slot(page, 0), page[1])
}

// Whether one page alone keeps every rule of a bucket page, with a local depth up to the deepest. tab is as for page_ok.
pub fn bucket_ok(page: &[u8], tab: &mut [u8], deepest: u8) -> bool
    requires { LentTable page.now tab.old deepest }
    ensures says { Says result (Keeps deepest page.now) }
    ensures zero { Zero tab.new }
{
    page_ok(page, tab) && page[1] <= deepest && share_ok(page)
}
