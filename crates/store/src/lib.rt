// The answers of the calls, the door for a given code, and the largest depth of a store's pages.
#![tactic(auto)]

ghost use Rattle.std.specs.Prelude.{◌≡◌, ◌+◌, ◌*◌, ◌≤◌, ◌<◌, length};
ghost use Rattle.ground.specs.Says.{Says};
ghost use Rattle.words.specs.Codes.{GoodCode};
ghost use Rattle.store.specs.Pages.{size, page, read, depth_on, contents, deepest_in};
ghost use Rattle.store.specs.Tables.{refusal, Numbered};

use page::Place;
use partition::Shape;

// Why a call is refused.
#[derive(Clone, Copy)]
pub enum Refusal {
    // the store's length, or the page's
    BadLength,
    // a rule fails on this page
    BadPage(usize),
    // the code's length
    BadCode,
    // a negative part of the place
    BadPlace,
    // the code is not there
    NoCode,
    // rows sharing its first 8 bits need too much
    PrefixFull,
    // more buckets than pages less 2
    PagesFull,
    // output under 64 bytes
    ShortOutput,
    // n not below the number of rows
    NoRow,
    // the runs of a batch differ in length, or its lengths do not add up
    BadRuns,
    // only a new code was expected, and the code is there
    KnownCode,
    // no mode of a put
    BadMode,
}

// A refusal in numbers: its own, and the page number that it carries, 0 for none.
// Stays: Numbered (specs/Tables) gives page 0 to a refusal that carries none, as the C header has it.
#[derive(Clone, Copy)]
pub struct Numbers {
    pub number: u32,
    pub page: usize,
}

// What a call did.
#[derive(Clone, Copy)]
pub enum Done {
    Formatted,
    Accepted,
    New,
    Replaced(Place),
    Found(Place),
    Rows(usize),
    RowOf(usize, Place),
}

// What a call answers: what it did, or why it is refused.
pub type Answer = Result<Done, Refusal>;

// The one door for a given code: whether it is one.
pub fn good_code(key: &[u8]) -> bool
    ensures { Says result (GoodCode key.now) }
{
    if key.len() == 0 {
        return false;
    }
    if 64 < key.len() {
        return false;
    }
    true
}

// Page p of a store.
pub fn page_at(s: &[u8], z: Shape, p: usize) -> &[u8]
    requires { p * size z + size z ≤ length s.now }
    ensures { result.now ≡ page z s.now p }
{
    let size = 8 + z.capacity;
    let a = p * size;
    &s[a..a + size]
}

// The local depth of page p, 0 for a free page.
// Stays: depth_on (specs/Pages), by which the greatest depth is defined, is 0 there.
fn depth_of(s: &[u8], z: Shape, p: usize) -> usize
    requires { p * size z + size z ≤ length s.now }
    ensures { (result ≡ depth_on (read (page z s.now p))) × (result < 256) }
{
    let a = p * (8 + z.capacity);
    if s[a] == 0 {
        return 0;
    }
    s[a + 1] as usize
}

// The largest bucket depth of a store of n pages, 0 for no rows.
// Stays: so document 01 has the directory's depth, and deepest_in (specs/Pages) with it: a depth, and no sign for none.
pub fn deepest(s: &[u8], z: Shape, n: usize) -> usize
    requires { (length s.now ≡ n * size z) × (2 ≤ n) }
    ensures { (result ≡ deepest_in (contents z s.now)) × (result < 256) }
{
    let mut best = 0;
    for p in 2..n {
        best = best.max(depth_of(s, z, p));
    }
    best
}

// The numbers of a refusal.
pub fn numbers_of(r: Refusal) -> Numbers
    ensures { Numbered result.number result.page (refusal r) }
{
    match r {
        Refusal::BadLength => Numbers { number: 1, page: 0 },
        Refusal::BadPage(p) => Numbers { number: 2, page: p },
        Refusal::BadCode => Numbers { number: 3, page: 0 },
        Refusal::BadPlace => Numbers { number: 4, page: 0 },
        Refusal::NoCode => Numbers { number: 5, page: 0 },
        Refusal::PrefixFull => Numbers { number: 6, page: 0 },
        Refusal::PagesFull => Numbers { number: 7, page: 0 },
        Refusal::ShortOutput => Numbers { number: 8, page: 0 },
        Refusal::NoRow => Numbers { number: 9, page: 0 },
        Refusal::BadRuns => Numbers {
            number: 12,
            page: 0,
        },
        Refusal::KnownCode => Numbers {
            number: 13,
            page: 0,
        },
        Refusal::BadMode => Numbers {
            number: 14,
            page: 0,
        },
    }
}
