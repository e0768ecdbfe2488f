// How far up the rows of a prefix fit. Over any page shape.
ghost use Rattle.std.specs.Prelude.{◌≤◌};
ghost use Rattle.ground.specs.Says.{Says};
ghost use Rattle.hash.specs.Fnv.{fnv};
ghost use Rattle.store.specs.Pages.{rows_held};
ghost use Rattle.store.specs.Demands.{Sized};
ghost use Rattle.joining.specs.Prefix.{needs_of, Above, Climbing, Climbed};

use partition::Shape;

// Whether the rows of the prefix of j bits of x need at most that much: bucket after bucket of its run of entries, each once.
fn needs_at_most(s: &[u8], z: Shape, x: u32, j: u32, limit: usize) -> bool
    requires { Sized z × Above z fnv s.now x j }
    ensures { Says result (needs_of fnv (rows_held z s.now) x j ≤ limit) }
{
    let size = z.size();
    let d = words::get32(s, 16) as u32;
    let run = partition::run_of(x, j, d);
    // Stays: each turn goes on by the entries of the page it has read, which no iterator of the library does.
    let mut i = run.from;
    let mut sum = 0;
    while i < run.to {
        let p = words::get32(s, size + 4 * i);
        if p == 0 {
            i += 1;
        } else {
            let a = p * size;
            sum += z.capacity - words::get16(s, a + 6);
            if limit < sum {
                return false;
            }
            i += query::entries_of(s, a, d);
        }
    }
    true
}

// From the k bits of the bucket that holds x up, as long as the rows of the prefix one bit shorter fit without a row of that need.
pub fn climb(s: &[u8], z: Shape, x: u32, k: u32, need: usize) -> u32
    requires { Sized z × Climbing z fnv s.now x k need }
    ensures { Climbed z fnv (rows_held z s.now) x k need result }
{
    for j in (0..k).rev() {
        if !needs_at_most(s, z, x, j, z.capacity + need) {
            return j + 1;
        }
    }
    0
}
