// A row put in at the frontier.
ghost use Rattle.std.specs.Prelude.{◌≡◌, ◌+◌, ◌≤◌, length};
ghost use Rattle.page.specs.Steps.{Recorded, Openable, Opened, Headable, Headed, Insertable, Inserted};

// A record, place and code, at f.
fn write_record(page: &mut [u8], f: usize, place: &[u8], key: &[u8])
    requires { (length place.now ≡ 8) × (f + 8 + length key.now ≤ length page.old) }
    ensures { Recorded page.old f place.now key.now page.new }
{
    words::copy_at(page, f, place);
    words::copy_at(page, f + 8, key);
}

// Of n slots those from s on move down by one, and w goes to slot s.
fn open_slot(page: &mut [u8], n: usize, s: usize, w: usize)
    requires { Openable page.old n s w }
    ensures { Opened page.old n s w page.new }
{
    let size = page.len();
    words::move_down(page, size - 4 * (n + 1), 4 * (n - s));
    words::put32(page, size - 4 * (s + 1), w);
}

#[tactic(auto, using(crate::proofs::Writes::headed))]
pub fn set_head(page: &mut [u8], n: usize, f: usize, r: usize)
    requires { Headable page.old n f r }
    ensures { Headed page.old n f r page.new }
{
    words::put16(page, 2, n);
    words::put16(page, 4, f);
    words::put16(page, 6, r);
}

// The row goes to the frontier and to slot s.
pub fn insert_at_frontier(page: &mut [u8], s: usize, key: &[u8], place: &[u8])
    requires { Insertable page.old s key.now place.now }
    ensures { Inserted page.old s key.now place.now page.new }
{
    let n = words::get16(page, 2);
    let f = words::get16(page, 4);
    let r = words::get16(page, 6);
    let m = key.len();
    write_record(page, f, place, key);
    open_slot(page, n, s, f + 16384 * (8 + m) + 268435456);
    set_head(page, n + 1, f + 8 + m, r - (12 + m));
}
