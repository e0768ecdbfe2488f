// A store's page size and length, and its page 0.
ghost use Rattle.ground.specs.Says.{Says};
ghost use Rattle.store.specs.Accepted.{GoodLength, Page0From};
ghost use Rattle.store.specs.Demands.{Sized};
ghost use Rattle.store_check.specs.Said.{SaidShape, HeadAsked};

use partition::Shape;
use store::Refusal;

// Whether a store's length is right for a page size.
fn good_length(s: &[u8], z: Shape) -> bool
    requires { Sized z }
    ensures { Says result (GoodLength z s.now) }
{
    let size = z.size();
    let n = s.len() / size;
    s.len() % size == 0 && (3..=z.entries + 2).contains(&n)
}

// The page size that a store says; refused where its length is not right for it.
pub fn said_shape(s: &[u8]) -> Result<Shape, Refusal>
    ensures { SaidShape s.now result }
{
    if s.len() < 24 {
        return Err(Refusal::BadLength);
    }
    let z = partition::shape_of(s);
    if !good_length(s, z) {
        return Err(Refusal::BadLength);
    }
    Ok(z)
}

// Whether page 0 keeps its rule, zero from an offset on.
pub fn page0_ok(s: &[u8], z: Shape, n: usize, zeros: usize) -> bool
    requires { HeadAsked z s.now n zeros }
    ensures { Says result (Page0From zeros z s.now) }
{
    let size = z.size();
    words::get32(s, 0) == n
        && words::get32(s, 4) == size
        && words::get32(s, 8) == z.entries
        && words::get32(s, 12) == 2 * size
        && words::get32(s, 16) <= z.deepest
        && words::get32(s, 20) == partition::size_number(z)
        && words::all_zero(&s[zeros..size])
}
