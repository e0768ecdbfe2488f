// The directory, read once, and runs of its entries.
ghost use Rattle.std.specs.Prelude.{◌≡◌, true, ◌≤◌, length};
ghost use Rattle.ground.specs.Says.{Says};
ghost use Rattle.store_check.specs.Directory.{Roomy, PageOneAsked, Entries, EntriesTo, EntriesInRange, Uncounted, NamesCounted, NamingAsked, Named};
ghost use Rattle.store.specs.Accepted.{Page1};
ghost use Rattle.partition.specs.Bits.{top};

use partition::Shape;

// The directory's first m entries.
fn entries(s: &[u8], z: Shape, m: usize, dir: &mut [u32])
    requires { Roomy z s.now dir.old m }
    ensures { EntriesTo z s.now dir.new m }
{
    for (i, e) in dir[..m].iter_mut().enumerate() {
        *e = words::get32(s, z.size() + 4 * i) as u32;
    }
}

// Whether the entries up to m are in range for n pages.
fn ranges(dir: &[u32], n: u32, m: usize) -> bool
    requires { m ≤ length dir.now }
    ensures { Says result (EntriesInRange dir.now n m) }
{
    // Stays: no way out before the end, so that it vectorises; `all` leaves at the first, and takes five instructions more for each entry.
    let mut ok = true;
    for &e in &dir[..m] {
        ok &= e != 1 && e < n;
    }
    ok
}

// Whether page 1 keeps its rules, with m entries in use, and if so the entries: those behind are looked at as bytes, not read.
pub fn page1_ok(s: &[u8], z: Shape, n: usize, m: usize, dir: &mut [u32]) -> bool
    requires { PageOneAsked z s.now dir.old n m }
    ensures says { Says result (Page1 z s.now) }
    ensures read { result ≡ true → Entries z s.now dir.new }
{
    let size = z.size();
    if !words::all_zero(&s[size + 4 * m..2 * size]) {
        return false;
    }
    entries(s, z, m, dir);
    ranges(dir, n as u32, m)
}

// How many of the entries up to m name each page.
// Stays: dir is by the entry and counts by the page, so that they are two arrays of two lengths.
pub fn tally(dir: &[u32], m: usize, counts: &mut [u32])
    requires { Uncounted dir.now counts.old m }
    ensures { NamesCounted dir.now m (length counts.old) counts.new }
{
    for e in &dir[..m] {
        counts[*e as usize] += 1;
    }
}

// Whether page p is named by exactly the entries that the first k bits of the hash x call for, in a directory of depth d: all of them, and as many as name p.
// Stays: dir is by the entry and counts by the page.
pub fn named(dir: &[u32], counts: &[u32], d: u32, k: u32, x: u32, p: u32) -> bool
    requires { NamingAsked dir.now counts.now d k p }
    ensures { Says result (Named dir.now d k (top k x) p) }
{
    let run = partition::run_of(x, k, d);
    counts[p as usize] as usize == run.to - run.from && dir[run.entries()].iter().all(|e| *e == p)
}
