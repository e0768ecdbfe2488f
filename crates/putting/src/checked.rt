// A put on a store that is known to be accepted: the same table, without another check.
ghost use Rattle.ground.specs.Ladder.{Answers};
ghost use Rattle.hash.specs.Fnv.{fnv};
ghost use Rattle.words.specs.Folds.{fold};
ghost use Rattle.page.specs.Places.{stored};
ghost use Rattle.store.specs.Demands.{put, Made};
ghost use Rattle.store.specs.Tables.{put_by_mode, meaning};
ghost use Rattle.putting.specs.Put.{new_row, Allowed, Ready};

use super::putting::put_given;
use partition::Shape;

// A code that is one gets a place with no negative part.
// Stays: the mode is a number, handed on from put to put_row.
pub fn put_allowed(
    s: &mut [u8],
    z: Shape,
    key: &[u8],
    place: page::Place,
    mode: u64,
) -> store::Answer
    requires { Allowed z fnv s.old key.now place }
    ensures { Answers (put_by_mode z fnv s.old mode (new_row (fold key.now) (stored place))) (meaning result, s.new) }
{
    let mut bytes = [0u8; 8];
    page::store_place(&mut bytes, place);
    put_given(s, z, key, &bytes, mode)
}

// A code gets a place, if it is what the mode expects.
// Stays: the mode is a number, as in put: the batch has it from C, and put_row takes it, so that an enum would be made here and unmade below.
pub fn put_checked(
    s: &mut [u8],
    z: Shape,
    key: &[u8],
    place: page::Place,
    mode: u64,
) -> store::Answer
    requires { Ready z fnv s.old mode }
    ensures { Made z fnv (put key.now place mode) s.old (meaning result) s.new }
{
    if !store::good_code(key) {
        return Err(store::Refusal::BadCode);
    }
    if page::negative(place) {
        return Err(store::Refusal::BadPlace);
    }
    put_allowed(s, z, key, place, mode)
}
