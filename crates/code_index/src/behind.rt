// What an index needs beside its codes: entries that rise, and zeros behind them.
ghost use Rattle.std.specs.Prelude.{◌≡◌, ◌≤◌};
ghost use Rattle.ground.specs.Says.{Says};
ghost use Rattle.code_index.specs.Entries.{entry_room, NoneFrom, RestsZero, Emptied};
ghost use Rattle.code_index.specs.Sort.{RisingBy};

use super::entry_at;
use super::sort::is_before;

// Returns how many entries x has room for.
pub fn entry_room(x: &[u8]) -> usize
    ensures { result ≡ entry_room x.now }
{
    14 * (x.len() / 1024)
}

// Says whether each of the first n entries is before the next.
pub fn entries_rise(x: &[u8], n: usize) -> bool
    requires { n ≤ entry_room x.now }
    ensures { Says result (RisingBy 1 n x.now) }
{
    for i in 1..n {
        if !is_before(x, i - 1, i) {
            return false;
        }
    }
    true
}

// Says whether the entries from n on are all zero.
pub fn entries_zero(x: &[u8], n: usize) -> bool
    ensures { Says result (NoneFrom n x.now) }
{
    for i in n..entry_room(x) {
        if !words::all_zero(entry_at(x, i)) {
            return false;
        }
    }
    true
}

// Says whether the last 16 bytes of every whole page are zero.
pub fn rests_zero(x: &[u8]) -> bool
    ensures { Says result (RestsZero x.now) }
{
    for p in 0..x.len() / 1024 {
        let a = 1024 * p + 1008;
        let e = a + 16;
        if !words::all_zero(&x[a..e]) {
            return false;
        }
    }
    true
}

// Clears the whole pages of x.
pub fn clear_entries(x: &mut [u8])
    ensures { Emptied x.old x.new }
{
    let end = 1024 * (x.len() / 1024);
    words::clear(x, 0, end);
}
