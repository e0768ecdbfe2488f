// The puts of a batch, one after the other.
ghost use Rattle.std.specs.Prelude.{◌≡◌};
ghost use Rattle.ground.specs.Ladder.{Answers};
ghost use Rattle.hash.specs.Fnv.{fnv};
ghost use Rattle.partition.specs.Sizes.{shape_of};
ghost use Rattle.store.specs.Tables.{meaning};
ghost use Rattle.putting.specs.Put.{Ready};
ghost use Rattle.batch.specs.Batch.{runs, GoodRuns, wanted, OnePut, OneByOne, batch_table};
ghost use Rattle.batch.specs.PlaceWords.{word_place};

use super::parts::{answer_number, word_place};
use super::runs::good_runs;
use partition::Shape;

// Stays: the C header has the modes as numbers, and specs/Batch:batch_table refuses those that are none.
// One put, at the place of a word, and the number of its answer.
fn put_word(s: &mut [u8], z: Shape, key: &[u8], w: u64, mode: u64) -> u32
    requires { Ready z fnv s.old mode }
    ensures { OnePut z fnv mode (record { code = key.now; place = word_place w }) s.old result s.new }
{
    answer_number(putting::put_checked(s, z, key, word_place(w), mode))
}

// Stays: the C header's lots_put_all has the runs side by side.
// Each put in turn, with the number of its answer.
fn put_each(
    s: &mut [u8],
    z: Shape,
    codes: &[u8],
    lengths: &[u32],
    places: &[u64],
    answers: &mut [u32],
    mode: u64,
)
    requires { Ready z fnv s.old mode × GoodRuns (runs codes.now lengths.now places.now answers.old) }
    ensures { OneByOne z fnv mode (wanted codes.now lengths.now places.now) s.old answers.new s.new }
{
    let mut at = 0;
    for i in 0..lengths.len() {
        let e = at + lengths[i] as usize;
        answers[i] = put_word(s, z, &codes[at..e], places[i], mode);
        at = e;
    }
}

// Stays: the C header's lots_put_all has the runs side by side and the mode as a number.
// Each code gets its place, if it is what the mode expects; the store is checked once.
pub fn put_all(
    s: &mut [u8],
    codes: &[u8],
    lengths: &[u32],
    places: &[u64],
    answers: &mut [u32],
    mode: u64,
) -> store::Answer
    ensures { Answers (batch_table (shape_of s.old) fnv s.old
        (runs codes.now lengths.now places.now answers.old) mode) (meaning result, (s.new, answers.new)) }
{
    let z = store_check::said_shape(s)?;
    if !good_runs(codes, lengths, places, answers) {
        return Err(store::Refusal::BadRuns);
    }
    if 2 < mode {
        return Err(store::Refusal::BadMode);
    }
    store_check::accept(s, z)?;
    put_each(s, z, codes, lengths, places, answers, mode);
    Ok(store::Done::Accepted)
}
