// Which pages a reader reads.
ghost use Rattle.std.specs.Prelude.{◌≡◌, ◌≤◌, length};
ghost use Rattle.ground.specs.Says.{Says};
ghost use Rattle.page_check.specs.Shared.{Keeps};
ghost use Rattle.page_reader.specs.Read.{SoundBucket, Reads};

// Whether a page of SIZE bytes keeps a bucket page's rules up to a depth.
fn keeps<const SIZE: usize>(page: &[u8], deepest: u8) -> bool
    requires { (length page.now ≡ SIZE) × (deepest ≤ 32) }
    ensures { Says result (Keeps deepest page.now) }
{
    let mut tab = [0u8; SIZE];
    page_check::bucket_ok(page, &mut tab, deepest)
}

// Whether a page of one of the three lengths is a bucket page that keeps every rule.
// Stays: no number of a step, but the page's length, by which the table's is picked; there is no heap for a table as long as the page.
fn sound(page: &[u8]) -> bool
    ensures { Says result (SoundBucket page.now) }
{
    let n = page.len();
    let deepest = partition::shape_for(n).deepest as u8;
    match n {
        1024 => keeps::<1024>(page, deepest),
        4096 => keeps::<4096>(page, deepest),
        16384 => keeps::<16384>(page, deepest),
        _ => false,
    }
}

// The page, if it is sound; else none of it.
pub fn sound_part(page: &[u8]) -> &[u8]
    ensures { Reads page.now result.now }
{
    if sound(page) { page } else { &page[0..0] }
}
