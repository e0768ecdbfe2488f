// A sheet row as two numbers.
ghost use Rattle.std.specs.Prelude.{◌≡◌, ◌+◌, ◌<◌, ◌^◌};
ghost use Rattle.report.specs.Report.{place_in};
ghost use Rattle.report.specs.Numbers.{nat_part, ranked, rank, raise_cents, laid};

use crate::{HIGHEST, LIMIT, OUTSIDE, SheetRow};
use page::Place;

// Three parts as one number, in the places' order; 2^63 for what is no place. A negative part makes the whole negative, so one test finds all three.
// Stays: specs/Numbers:ranked gives what is no place this number, and an option would not lie in the buffer.
fn rank_parts(a: i32, b: i16, c: i16) -> u64
    ensures { result ≡ ranked (nat_part a) (nat_part b) (nat_part c) }
{
    let w = (a as i64 * 4294967296) | (b as i64 * 65536) | c as i64;
    if w < 0 {
        return OUTSIDE;
    }
    w as u64
}

pub fn rank_of(p: Place) -> u64
    ensures { result ≡ rank p }
{
    rank_parts(p.page, p.slot, p.volume)
}

// The rank of a sheet row's place.
fn rank_row(r: SheetRow) -> u64
    ensures { result ≡ rank (place_in r) }
{
    rank_of(Place {
        page: r.page,
        slot: r.slot,
        volume: r.volume,
    })
}

// An amount raised by 10^12, so that no sum is negative; 2^63 for what is out of range.
// Stays: specs/Numbers:raise_cents gives what is out of range this number, and an option would not lie in the buffer.
fn raise_of(c: i64) -> u64
    ensures { result ≡ raise_cents c }
{
    if (-HIGHEST..=HIGHEST).contains(&c) {
        return (c + HIGHEST) as u64;
    }
    OUTSIDE
}

// Stays: the two numbers of a row lie in two halves of one buffer, as specs/Numbers:laid and spread_from have it.
// Row i as two numbers, and the next i.
pub fn lay(flat: &mut [u64], i: usize, r: SheetRow) -> usize
    requires { i + 1 < 2 ^ 64 }
    ensures { (result ≡ i + 1) × (flat.new ≡ laid flat.old i r) }
{
    let w = rank_row(r);
    let c = raise_of(r.cents);
    if LIMIT <= i {
        return i + 1;
    }
    if flat.len() != 2 * LIMIT {
        return i + 1;
    }
    flat[i] = w;
    flat[LIMIT + i] = c;
    i + 1
}
