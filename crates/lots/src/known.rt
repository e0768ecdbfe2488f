// The calls on a store that may be known to be accepted: then it is not checked again, and the table is the same.
ghost use Rattle.std.specs.Prelude.{◌≤◌, length};
ghost use Rattle.ground.specs.Ladder.{Answers};
ghost use Rattle.ground.specs.Says.{Says};
ghost use Rattle.hash.specs.Fnv.{fnv};
ghost use Rattle.partition.specs.Sizes.{shape_of};
ghost use Rattle.store.specs.Accepted.{Accepted};
ghost use Rattle.store.specs.Tables.{check_table, count_table, lookup_table, put_table, remove_table, row_table, meaning};
ghost use Rattle.lots.specs.Known.{Known};

use super::obey;
use page::Place;
use store::{Answer, Done, Refusal};

// Whether the store is accepted: the one check of a run.
pub fn is_accepted(s: &[u8]) -> bool
    ensures { Says result (Accepted (shape_of s.now) fnv s.now) }
{
    obey::is_done(query::check(s))
}

pub fn check_known(s: &[u8], known: bool) -> Answer
    requires { Known known s.now }
    ensures { Answers (check_table (shape_of s.now) fnv s.now) (meaning result) }
{
    if !known {
        return query::check(s);
    }
    Ok(Done::Accepted)
}

pub fn count_known(s: &[u8], known: bool) -> Answer
    requires { Known known s.now }
    ensures { Answers (count_table (shape_of s.now) fnv s.now) (meaning result) }
{
    if !known {
        return query::count(s);
    }
    Ok(Done::Rows(counts::rows_counted(s)))
}

pub fn lookup_known(s: &[u8], key: &[u8], known: bool) -> Answer
    requires { Known known s.now }
    ensures { Answers (lookup_table (shape_of s.now) fnv s.now key.now) (meaning result) }
{
    if !known {
        return query::lookup(s, key);
    }
    if !store::good_code(key) {
        return Err(Refusal::BadCode);
    }
    query::place_given(s, partition::shape_of(s), key)
}

pub fn row_known(s: &[u8], n: usize, out: &mut [u8], known: bool) -> Answer
    requires { Known known s.now × (64 ≤ length out.old) }
    ensures { Answers (row_table (shape_of s.now) fnv s.now n out.old) (meaning result, out.new) }
{
    if !known {
        return query::row_at(s, n, out);
    }
    query::give_row(s, partition::shape_of(s), n, out)
}

// Stays: the C header has the mode as this number, and a call with another one is refused (Tables:put_table).
pub fn put_known(s: &mut [u8], key: &[u8], place: Place, mode: u64, known: bool) -> Answer
    requires { Known known s.old }
    ensures { Answers (put_table (shape_of s.old) fnv s.old key.now place mode) (meaning result, s.new) }
{
    if !known || 2 < mode {
        return putting::put(s, key, place, mode);
    }
    let z = partition::shape_of(s);
    putting::put_checked(s, z, key, place, mode)
}

pub fn remove_known(s: &mut [u8], key: &[u8], known: bool) -> Answer
    requires { Known known s.old }
    ensures { Answers (remove_table (shape_of s.old) fnv s.old key.now) (meaning result, s.new) }
{
    if !known {
        return removal::remove(s, key);
    }
    if !store::good_code(key) {
        return Err(Refusal::BadCode);
    }
    let z = partition::shape_of(s);
    removal::remove_given(s, z, key)
}
