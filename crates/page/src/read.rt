// Where records lie, and where a code stands.
ghost use Rattle.std.specs.Prelude.{◌≡◌, ◌+◌, ◌*◌, ◌≤◌, ◌<◌, length};
ghost use Rattle.ground.specs.Lists.{byte};
ghost use Rattle.words.specs.Codes.{Ordered};
ghost use Rattle.page.specs.Page.{Slotted, off, len, code, place, count};
ghost use Rattle.page.specs.Found.{FoundIn, CodeAsked, CodeOut};

use crate::Extent;
use std::cmp::Ordering;

// Where slot i says that its record lies.
// Stays: `remove_slot` calls it of a page that it has half changed, so only the length can be asked, and `Short { page }.extent_of(i)` is no plainer.
#[tactic(auto, unfolding(crate::specs::Page::off, crate::specs::Page::len, crate::specs::Page::word))]
pub fn extent_of(page: &[u8], i: usize) -> Extent
    requires { (4 * (i + 1) ≤ length page.now) × (length page.now ≤ 16384) }
    ensures { (result.off ≡ off page.now i) × (result.len ≡ len page.now i) }
{
    let w = words::get32(page, page.len() - 4 * (i + 1));
    Extent {
        off: w % 16384,
        len: w / 16384 % 16384,
    }
}

// Slot i's code, as a part of the page.
// Stays: `page_reader::Reader` is the struct over a page. Callers here have a part of a store or of a spare page for a call or two, and `Bucket { page: &s[a..e] }.code_at(i)` is no plainer.
pub fn code_at(page: &[u8], i: usize) -> &[u8]
    requires { Slotted page.now × (i < count page.now) }
    ensures { result.now ≡ code page.now i }
{
    let w = words::get32(page, page.len() - 4 * (i + 1));
    let o = w % 16384;
    // of a record that lies, 1 stands above its length
    let l = w / 16384 - 16384;
    &page[o + 8..o + l]
}

// The 8 bytes of slot i's place, as a part of the page.
pub fn place_at(page: &[u8], i: usize) -> &[u8]
    requires { Slotted page.now × (i < count page.now) }
    ensures { result.now ≡ place page.now i }
{
    let Extent { off, .. } = extent_of(page, i);
    &page[off..off + 8]
}

// Slot i's code against a code.
pub fn compare_slot(page: &[u8], i: usize, key: &[u8]) -> Ordering
    requires { Slotted page.now × (i < count page.now) }
    ensures { Ordered (code page.now i) key.now result }
{
    words::compare_alike(code_at(page, i), key)
}

// The first byte of slot i's code.
fn first_byte(page: &[u8], i: usize) -> u8
    requires { Slotted page.now × (i < count page.now) }
    ensures { result ≡ byte (code page.now i) 0 }
{
    page[extent_of(page, i).off + 8]
}

// Where a code stands, or else where it belongs: slots are in code order, so what is left is halved. Most codes differ in their first byte; before all stands an empty one.
// Stays: slots lie from the page's end on and hold where their codes lie, so there is no slice of codes that `binary_search_by` could halve.
pub fn find_code(page: &[u8], key: &[u8]) -> Result<usize, usize>
    requires { Slotted page.now }
    ensures { FoundIn page.now key.now result }
{
    if key.len() < 1 {
        return Err(0);
    }
    let mut lo = 0;
    let mut hi = words::get16(page, 2);
    while lo < hi {
        let mid = lo + (hi - lo) / 2;
        let x = first_byte(page, mid);
        if x < key[0] {
            lo = mid + 1;
        } else if key[0] < x {
            hi = mid;
        } else {
            let c = code_at(page, mid);
            // both are that one byte
            if c.len() + key.len() == 2 {
                return Ok(mid);
            }
            match words::compare_alike(c, key) {
                Ordering::Less => lo = mid + 1,
                Ordering::Equal => return Ok(mid),
                Ordering::Greater => hi = mid,
            }
        }
    }
    Err(lo)
}

// Slot i's code goes to the start of out; its length.
pub fn read_code(page: &[u8], i: usize, out: &mut [u8]) -> usize
    requires { CodeAsked page.now i out.old }
    ensures { CodeOut page.now i out.old result out.new }
{
    let c = code_at(page, i);
    words::copy_at(out, 0, c);
    c.len()
}
