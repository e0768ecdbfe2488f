// Format, free pages, and depth and directory written from the pages.
#![tactic(auto)]

ghost use Rattle.ground.specs.Ladder.{Answers};
ghost use Rattle.ground.specs.Says.{Says};
ghost use Rattle.store.specs.Demands.{Sized};
ghost use Rattle.store.specs.Tables.{PageSize, format_table, format_sized, meaning};

use partition::Shape;

mod directory;
mod pages;

pub use directory::{name_prefix, recount, settle_depth};
pub use pages::{free_pages, lowest_free};

// Page 0 with depth 0, all other pages cleared, whatever the store held. Over any page shape.
fn format_pages(s: &mut [u8], z: Shape) -> store::Answer
    requires { Sized z }
    ensures { Answers (format_table z s.old) (meaning result, s.new) }
{
    let size = z.size();
    if s.len() % size != 0 {
        return Err(store::Refusal::BadLength);
    }
    let n = s.len() / size;
    if n < 3 {
        return Err(store::Refusal::BadLength);
    }
    if z.entries + 2 < n {
        return Err(store::Refusal::BadLength);
    }
    let len = s.len();
    words::clear(s, 0, len);
    words::put32(s, 0, n);
    words::put32(s, 4, size);
    words::put32(s, 8, z.entries);
    words::put32(s, 12, 2 * size);
    words::put32(s, 20, partition::size_number(z));
    Ok(store::Done::Formatted)
}

// Whether a page size is one of the three.
fn is_page_size(n: usize) -> bool
    ensures { Says result (PageSize n) }
{
    matches!(n, 1024 | 4096 | 16384)
}

// A store without rows, of the page size that is given.
pub fn format(s: &mut [u8], size: usize) -> store::Answer
    ensures { Answers (format_sized size s.old) (meaning result, s.new) }
{
    if !is_page_size(size) {
        return Err(store::Refusal::BadLength);
    }
    format_pages(s, partition::shape_for(size))
}
