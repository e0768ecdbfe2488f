// The fourteen counts worked out from the pages, compared with those in page 0, and written there.
ghost use Rattle.std.specs.Prelude.{◌≡◌, ◌+◌, ◌*◌, ◌≤◌, ◌<◌, length, get_or};
ghost use Rattle.ground.specs.Says.{Says};
ghost use Rattle.counts.specs.Tallies.{Tallying, TalliedTo, Tallyable, Tallied, SameCounts, CountsWritten, CountsDue, CountsNow, one_more, one_less};

use partition::Shape;

// The number of rows, and behind it thirteen numbers of buckets, by local depth from 0 to 12.
pub type Tallies = [u32; 14];

// What page p has goes to the counts of the pages before it.
fn tally_page(s: &[u8], z: Shape, p: usize, tallies: &mut Tallies)
    requires { Tallying z s.now p tallies.old }
    ensures { TalliedTo z s.now (p + 1) tallies.new }
{
    let a = p * (8 + z.capacity);
    if s[a] == 0 {
        return;
    }
    let k = 1 + s[a + 1] as usize;
    tallies[0] += words::get16(s, a + 2) as u32;
    tallies[k] += 1;
}

// The counts of a store of n pages: each page once.
pub fn tally(s: &[u8], z: Shape, n: usize) -> Tallies
    requires { Tallyable z s.now n }
    ensures { Tallied z s.now result }
{
    let mut tallies = [0; 14];
    for p in 2..n {
        tally_page(s, z, p, &mut tallies);
    }
    tallies
}

// Whether the counts in page 0 are these.
pub fn are_counts(s: &[u8], tallies: &[u32]) -> bool
    requires { (80 ≤ length s.now) × (length tallies.now ≡ 14) }
    ensures { Says result (SameCounts s.now tallies.now) }
{
    (0..14).all(|j| words::get32(s, 24 + 4 * j) == tallies[j] as usize)
}

// The counts in page 0.
pub fn read_counts(s: &[u8]) -> Tallies
    requires { 80 ≤ length s.now }
    ensures { (length result ≡ 14) × SameCounts s.now result }
{
    std::array::from_fn(|j| words::get32(s, 24 + 4 * j) as u32)
}

// Count j of the array is one more.
// Stays: over a slice, and the next too; docs/PROMISES.md names both, and they promise this of every length.
pub fn count_up(tallies: &mut [u32], j: usize)
    requires { (j < length tallies.old) × (get_or tallies.old j 0 + 1 < 4294967296) }
    ensures { tallies.new ≡ one_more tallies.old j }
{
    tallies[j] += 1;
}

// Count j of the array is one less.
pub fn count_down(tallies: &mut [u32], j: usize)
    requires { (j < length tallies.old) × (1 ≤ get_or tallies.old j 0) }
    ensures { tallies.new ≡ one_less tallies.old j }
{
    tallies[j] -= 1;
}

// These counts go to page 0.
pub fn write_counts(s: &mut [u8], tallies: &[u32])
    requires { (80 ≤ length s.old) × (length tallies.now ≡ 14) }
    ensures { CountsWritten s.old tallies.now s.new }
{
    for j in 0..14 {
        words::put32(s, 24 + 4 * j, tallies[j] as usize);
    }
}

// That many rows and the array's counts of buckets go to page 0.
pub fn write_counted(s: &mut [u8], tallies: &[u32], rows: usize)
    requires { CountsDue s.old tallies.now rows }
    ensures { CountsNow s.old rows tallies.now s.new }
{
    write_counts(s, tallies);
    words::put32(s, 24, rows);
}
