// A row taken out of a store.
ghost use Rattle.std.specs.Prelude.{◌≡◌};
ghost use Rattle.ground.specs.Ladder.{Answers};
ghost use Rattle.hash.specs.Fnv.{fnv};
ghost use Rattle.words.specs.Folds.{fold};
ghost use Rattle.partition.specs.Sizes.{shape_of};
ghost use Rattle.store.specs.Pages.{contents};
ghost use Rattle.store.specs.Accepted.{Accepted};
ghost use Rattle.store.specs.Demands.{Sized};
ghost use Rattle.store.specs.Moves.{removed};
ghost use Rattle.store.specs.Tables.{Becomes, remove_accepted, remove_table, meaning};
ghost use Rattle.query.specs.Asked.{GivenAsked};
ghost use Rattle.removal.specs.Remove.{Leaving};

use directory::{name_prefix, settle_depth};
use joining::{climb, join_lent};
use partition::Shape;
use query::Spot;

// The row of the code of the hash x, which is that at a spot, goes: its page loses the record, is cleared, or is joined with others.
fn take_out(s: &mut [u8], z: Shape, at: Spot, key: &[u8], x: u32)
    requires { Leaving z fnv s.old at.page at.slot key.now × (x ≡ fnv key.now) }
    ensures { Becomes z fnv s.old (removed z fnv (contents z s.old) key.now) s.new }
{
    let size = z.size();
    let n = s.len() / size;
    let start = at.page * size;
    let end = start + size;
    let k = s[start + 1] as u32;
    let j = climb(s, z, x, k, 12 + key.len());
    let d = words::get32(s, 16);
    if j < k {
        let rows = counts::rows_counted(s);
        let mut tallies = counts::read_counts(s);
        let low = join_lent(s, z, n, x, j, key, &mut tallies);
        name_prefix(s, z, x, j, d as u32, low);
        counts::write_counted(s, &tallies, rows - 1);
        settle_depth(s, z, n, d, d);
    } else if words::get16(store::page_at(s, z, at.page), 2) == 1 {
        page::clear_page(&mut s[start..end]);
        name_prefix(s, z, x, k, d as u32, 0);
        counts::lower(s, 0);
        counts::lower(s, 1 + k as usize);
        settle_depth(s, z, n, d, d);
    } else {
        page::remove_slot(&mut s[start..end], at.slot);
        counts::lower(s, 0);
    }
}

// Remove of a code as it is stored, on an accepted store.
pub fn remove_row(s: &mut [u8], z: Shape, key: &[u8]) -> store::Answer
    requires { Sized z × Accepted z fnv s.old }
    ensures { Answers (remove_accepted z fnv s.old key.now) (meaning result, s.new) }
{
    let x = hash::hash(key);
    let spot = query::find_row(s, z, key, x).ok_or(store::Refusal::NoCode)?;
    let old = page::read_place(store::page_at(s, z, spot.page), spot.slot);
    take_out(s, z, spot, key, x);
    Ok(store::Done::Found(old))
}

// Remove of a given code on an accepted store.
pub fn remove_given(s: &mut [u8], z: Shape, key: &[u8]) -> store::Answer
    requires { GivenAsked z fnv s.old key.now }
    ensures { Answers (remove_accepted z fnv s.old (fold key.now)) (meaning result, s.new) }
{
    let n = key.len();
    let mut low = [0u8; 64];
    words::fold_code(&mut low, key);
    remove_row(s, z, &low[0..n])
}

// The row of a code goes; its place.
pub fn remove(s: &mut [u8], key: &[u8]) -> store::Answer
    ensures { Answers (remove_table (shape_of s.old) fnv s.old key.now) (meaning result, s.new) }
{
    let z = store_check::said_shape(s)?;
    if !store::good_code(key) {
        return Err(store::Refusal::BadCode);
    }
    store_check::accept(s, z)?;
    remove_given(s, z, key)
}
