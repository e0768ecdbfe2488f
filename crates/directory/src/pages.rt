// Free pages of a store. Over any page shape.
ghost use Rattle.std.specs.Prelude.{◌≡◌, ◌+◌, ◌*◌, ◌≤◌, ◌<◌, min, length};
ghost use Rattle.store.specs.Pages.{size, pages, contents};
ghost use Rattle.store.specs.Moves.{find, is_free, frees};

use partition::Shape;

// The lowest-numbered free page, where one is free.
pub fn lowest_free(s: &[u8], z: Shape) -> usize
    requires { 0 < frees (contents z s.now) }
    ensures { (result ≡ 2 + find is_free (contents z s.now)) × (result < pages z s.now) }
{
    // Stays: a free page is there (the requires), so the search needs no end; a range's find would hand out an Option that is never None.
    let mut p = 2;
    while s[p * z.size()] != 0 {
        p += 1;
    }
    p
}

// How many of n pages are free, counted up to most.
pub fn free_pages(s: &[u8], z: Shape, n: usize, most: usize) -> usize
    requires { (length s.now ≡ n * size z) × (2 ≤ n) }
    ensures { (result ≡ min most (frees (contents z s.now))) × (result ≤ n) }
{
    let mut many = 0;
    for p in 2..n {
        if many == most {
            return many;
        }
        if s[p * z.size()] == 0 {
            many += 1;
        }
    }
    many
}
