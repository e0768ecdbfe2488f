// A row taken out.
ghost use Rattle.std.specs.Prelude.{◌≡◌, ◌+◌, ◌*◌, ◌≤◌, ◌<◌, length};
ghost use Rattle.page.specs.Page.{off, len};
ghost use Rattle.page.specs.Steps.{Top, Closed, Removable, Removed};

use super::insert::set_head;
use super::read::extent_of;
use crate::Extent;

// Where slot i's record ends.
#[tactic(auto, unfolding(crate::specs::Page::off, crate::specs::Page::len))]
pub fn end_of(page: &[u8], i: usize) -> usize
    requires { (4 * (i + 1) ≤ length page.now) × (length page.now ≤ 16384) }
    ensures { (result ≡ off page.now i + len page.now i) × (result < 32768) }
{
    let Extent { off, len } = extent_of(page, i);
    off + len
}

// The largest record end of n slots; 8, where records begin, for none.
pub fn top_of(page: &[u8], n: usize) -> usize
    requires { (4 * n ≤ length page.now) × (length page.now ≤ 16384) }
    ensures { Top page.now n result × (result < 32768) }
{
    let mut best = 8;
    for i in 0..n {
        best = best.max(end_of(page, i));
    }
    best
}

// Of n slots those after s move up by one, over slot s, and the last is cleared.
fn close_slot(page: &mut [u8], n: usize, s: usize)
    requires { (s < n) × (4 * n + 4 ≤ length page.old) }
    ensures { Closed page.old n s page.new }
{
    let size = page.len();
    words::move_up(page, size - 4 * (n - 1), size - 4 * s);
    words::clear(page, size - 4 * n, size - 4 * (n - 1));
}

// The row of slot s goes: its record is cleared, the slots close up, the frontier is found anew.
pub fn remove_slot(page: &mut [u8], s: usize)
    requires { Removable page.old s }
    ensures { Removed page.old s page.new }
{
    let n = words::get16(page, 2);
    let r = words::get16(page, 6);
    let Extent { off, len } = extent_of(page, s);
    words::clear(page, off, off + len);
    close_slot(page, n, s);
    let f = top_of(page, n - 1);
    set_head(page, n - 1, f, r + 4 + len);
}
