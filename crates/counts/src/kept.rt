// The counts in page 0, read and kept.
ghost use Rattle.std.specs.Prelude.{◌≡◌, ◌+◌, ◌*◌, ◌≤◌, ◌<◌, length};
ghost use Rattle.words.specs.Le.{le32};
ghost use Rattle.counts.specs.Tallies.{DeepestCounted, CountRaised, CountLowered};

// The number of rows.
pub fn rows_counted(s: &[u8]) -> usize
    requires { 28 ≤ length s.now }
    ensures { result ≡ le32 s.now 24 }
{
    words::get32(s, 24)
}

// The largest depth, at most that many bits, of which there is a bucket, by the counts; 0 for none.
// Stays: DeepestCounted (specs/Tallies) has this 0, the directory's depth where there are no rows, as document 01 has it.
pub fn deepest_counted(s: &[u8], most: usize) -> usize
    requires { (80 ≤ length s.now) × (most ≤ 12) }
    ensures { DeepestCounted s.now most result }
{
    for k in (1..=most).rev() {
        if words::get32(s, 28 + 4 * k) != 0 {
            return k;
        }
    }
    0
}

// Count j is one more.
pub fn raise(s: &mut [u8], j: usize)
    requires { (28 + 4 * j ≤ length s.old) × (le32 s.old (24 + 4 * j) + 1 < 4294967296) }
    ensures { CountRaised s.old j s.new }
{
    let n = words::get32(s, 24 + 4 * j);
    words::put32(s, 24 + 4 * j, n + 1);
}

// Count j is one less.
pub fn lower(s: &mut [u8], j: usize)
    requires { (28 + 4 * j ≤ length s.old) × (1 ≤ le32 s.old (24 + 4 * j)) }
    ensures { CountLowered s.old j s.new }
{
    let n = words::get32(s, 24 + 4 * j);
    words::put32(s, 24 + 4 * j, n - 1);
}
