// The words that the program was started with, its own name the first.
ghost use Rattle.std.specs.Prelude.{◌≤◌, length, IfSome};

use std::env::{Env, FillError};

// Word i at the start of the buffer, and its length; none where there is none, or it is empty, or there is no room for it.
pub fn word<R: Env>(rt: &R, i: usize, out: &mut [u8]) -> Option<usize>
    ensures { IfSome result (λ n. n ≤ length out.new) }
{
    rt.arg(i, out).ok().filter(|n| *n > 0)
}

fn is_there<R: Env>(rt: &R, i: usize) -> bool {
    !matches!(rt.arg(i, &mut [0u8; 1]), Err(FillError::NotPresent))
}

// How many words there are; of more than 6 only so many are counted.
pub fn count<R: Env>(rt: &R) -> usize {
    (0..6).take_while(|i| is_there(rt, *i)).count()
}
