// A page's rows and a new row together: their hashes and needs, what those of a prefix need, and how many buckets they make.
ghost use Rattle.std.specs.Prelude.{◌≡◌, ◌+◌, ◌≤◌, eqb, length};
ghost use Rattle.words.specs.Codes.{GoodCode};
ghost use Rattle.hash.specs.Fnv.{fnv};
ghost use Rattle.partition.specs.Bits.{top};
ghost use Rattle.partition.specs.Partition.{needs, rows_of};
ghost use Rattle.store.specs.Moves.{pick};
ghost use Rattle.putting.specs.Split.{keyed, with_new, below, Weighable, Weighed, Countable, CountedBelow};

use partition::Shape;

// The hash of a row, and what the row needs.
#[derive(Clone, Copy)]
pub struct Weight {
    pub hash: u32,
    pub need: u32,
}

// Those of a row of the code.
fn weight_of(code: &[u8]) -> Weight
    requires { GoodCode code.now }
    ensures { (result.hash ≡ fnv code.now) × (result.need ≡ 12 + length code.now) }
{
    Weight {
        hash: hash::hash(code),
        need: (12 + code.len()) as u32,
    }
}

// Those of the page's rows, slot by slot, and then those of a row of the code.
pub fn gather(page: &[u8], key: &[u8], ws: &mut [Weight])
    requires { Weighable page.now key.now ws.old }
    ensures { Weighed fnv page.now key.now ws.new }
{
    let n = words::get16(page, 2);
    for i in 0..n {
        ws[i] = weight_of(page::code_at(page, i));
    }
    ws[n] = weight_of(key);
}

// The need of a row, 0 where its hash does not begin with the k bits of v.
// Stays: the 0 is a need, which is summed: no caller asks whether there is one. And k ≤ 12, here, in load and in hash_under, is top_bits' own demand of a plain number.
fn need_of(w: Weight, k: u32, v: u64) -> u32
    requires { k ≤ 12 }
    ensures { (result ≡ pick (eqb (top k w.hash) v) w.need 0) × (result ≤ w.need) }
{
    if partition::top_bits(w.hash, k) != v {
        return 0;
    }
    w.need
}

// What the page's rows and a row of the code need whose hashes begin with the k bits of v.
pub fn load(page: &[u8], key: &[u8], ws: &[Weight], k: u32, v: u64) -> usize
    requires { Weighed fnv page.now key.now ws.now × (k ≤ 12) }
    ensures { result ≡ needs (rows_of fnv (with_new page.now (keyed key.now)) k v) }
{
    let n = words::get16(page, 2);
    let mut sum = need_of(ws[n], k, v);
    for i in 0..n {
        sum += need_of(ws[i], k, v);
    }
    sum as usize
}

// The number of buckets at the prefix v of k bits and below it, which are counted in the array by their depths, too.
pub fn count_below(
    page: &[u8],
    z: Shape,
    key: &[u8],
    ws: &[Weight],
    k: u32,
    v: u64,
    tallies: &mut [u32],
) -> usize
    requires { Countable z fnv page.now key.now ws.now k v tallies.old }
    ensures many { result ≡ length (below z fnv (with_new page.now (keyed key.now)) k v) }
    ensures counted { CountedBelow z fnv (with_new page.now (keyed key.now)) k v tallies.old tallies.new }
{
    let n = load(page, key, ws, k, v);
    if n == 0 {
        return 0;
    }
    if n <= z.capacity {
        counts::count_up(tallies, 1 + k as usize);
        return 1;
    }
    if k as usize == z.deepest {
        return 0;
    }
    let left = count_below(page, z, key, ws, k + 1, 2 * v, tallies);
    let right = count_below(page, z, key, ws, k + 1, 2 * v + 1, tallies);
    left + right
}
