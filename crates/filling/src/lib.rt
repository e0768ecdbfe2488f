// The call that fills in the counts of a store that meets the old rules.
#![tactic(auto)]

ghost use Rattle.ground.specs.Ladder.{Answers};
ghost use Rattle.hash.specs.Fnv.{fnv};
ghost use Rattle.partition.specs.Sizes.{shape_of};
ghost use Rattle.store.specs.Tables.{meaning};
ghost use Rattle.filling.specs.Filling.{fill_table};

use store::{Answer, Done, Refusal};

// The counts of page 0, from the pages. A store that has them already breaks the old rules, unless it has no rows.
pub fn fill_counts(s: &mut [u8]) -> Answer
    ensures { Answers (fill_table (shape_of s.old) fnv s.old) (meaning result, s.new) }
{
    let z = store_check::said_shape(s)?;
    if let Some(p) = store_check::first_bad_before(s, z) {
        return Err(Refusal::BadPage(p));
    }
    let n = s.len() / (8 + z.capacity);
    directory::recount(s, z, n);
    Ok(Done::Formatted)
}
