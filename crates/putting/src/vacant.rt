// The depth of a bucket that did not exist.
ghost use Rattle.std.specs.Prelude.{◌≤◌};
ghost use Rattle.ground.specs.Says.{Says};
ghost use Rattle.partition.specs.Bits.{top};
ghost use Rattle.query.specs.Spots.{DirectoryOf};
ghost use Rattle.putting.specs.Put.{Unset, Vacant};

use partition::Shape;

// Whether no entry names a page, of those that the first k bits of the hash x call for in a directory of depth d.
fn unset(s: &[u8], z: Shape, x: u32, k: u32, d: u32) -> bool
    requires { DirectoryOf z s.now d × (k ≤ d) }
    ensures { Says result (Unset z s.now d k (top k x)) }
{
    for i in partition::run_of(x, k, d).entries() {
        if words::get32(s, z.size() + 4 * i) != 0 {
            return false;
        }
    }
    true
}

// The length of the shortest such prefix of the hash x.
pub fn vacant_depth(s: &[u8], z: Shape, x: u32, d: u32) -> u32
    requires { DirectoryOf z s.now d × Unset z s.now d d (top d x) }
    ensures { Vacant z s.now d x result }
{
    for k in (0..d).rev() {
        if !unset(s, z, x, k, d) {
            return k + 1;
        }
    }
    0
}
