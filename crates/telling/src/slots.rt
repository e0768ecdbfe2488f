// The rows of one page as lines on standard output, slot by slot.
ghost use Rattle.std.specs.Prelude.{◌≡◌, ◌+◌, ◌<◌, IfSome};
ghost use Rattle.store.specs.Tables.{meaning};
ghost use Rattle.telling.specs.Told.{AllTold, Shown, SlotGiven};

use super::say;
use store::Answer;

// The row in slot i of a page on a line; whether it could be written.
fn tell_slot<R: Print + Eprint>(rt: &R, page: &[u8], i: usize, a: Answer, code: &[u8]) -> bool
    requires { SlotGiven page.now i (meaning a) code.now }
{
    say::answer(rt, a, code, 0)
}

// Of n rows the one after the first i, and how many are told then; none where it could not be written.
fn page_row<R: Print + Eprint>(rt: &R, page: &[u8], n: usize, i: usize) -> Option<usize>
    requires { Shown page.now n × (i < n) }
    ensures { IfSome result (λ told. told ≡ i + 1) }
{
    let mut code = [0u8; 64];
    let a = page_reader::inspect(page, i, &mut code);
    tell_slot(rt, page, i, a, &code).then_some(i + 1)
}

// The n rows of a page, slot by slot, and their number; none where one could not be written.
pub fn page_rows<R: Print + Eprint>(rt: &R, page: &[u8], n: usize) -> Option<usize>
    requires { Shown page.now n }
    ensures { AllTold n result }
{
    let mut told = 0;
    for i in 0..n {
        told = page_row(rt, page, n, i)?;
    }
    Some(told)
}
