// A page read row by row through the reader: what comes out is its listing, codes in byte order.
ghost use Rattle.page.specs.Page.{Slotted};
ghost use Rattle.cases.specs.Reads.{Addable};

use super::show::digits;
use store::Done;

// A row of place (page, 0, 0) goes where its code belongs, if it is new and fits.
fn add(bucket: &mut [u8], key: &[u8], page: u8)
    requires { Addable bucket.old key.now }
    ensures { Slotted bucket.new }
{
    let mut scratch = [0u8; 1024];
    let place = [page, 0, 0, 0, 0, 0, 0, 0];
    if words::get16(bucket, 6) < 12 + key.len() {
        return;
    }
    if let Err(s) = page::find_code(bucket, key) {
        page::insert_row(bucket, s, key, &place, &mut scratch);
    }
}

// Row n on a line, the page of its place and its code; whether there is one.
// Stays: it prints in the one arm, which no matches! does.
fn row<R: Print>(rt: &R, bucket: &[u8], n: usize) -> bool {
    let mut out = [0u8; 64];
    match page_reader::inspect(bucket, n, &mut out) {
        Ok(Done::RowOf(m, p)) => {
            let x = u64::try_from(p.page).unwrap_or(0);
            let _ = print!(rt; "{x:04x}");
            digits(rt, &out[0..m]);
            true
        }
        _ => false,
    }
}

fn rows<R: Print>(rt: &R, bucket: &[u8]) {
    for n in 0..78 {
        if !row(rt, bucket, n) {
            return;
        }
    }
}

pub fn row_by_row<R: Print>(rt: &R) {
    let mut bucket = [0xAAu8; 1024];
    page::new_page(&mut bucket, 0);
    add(&mut bucket, b"b", 1);
    add(&mut bucket, b"lot-7a", 2);
    add(&mut bucket, b"lot-7", 3);
    add(&mut bucket, b"a", 4);
    let _ = println!(rt; "a page, row by row");
    rows(rt, &bucket);
    bucket[500] = 1;
    let _ = println!(rt; "a byte off");
    rows(rt, &bucket);
    page::clear_page(&mut bucket);
    let _ = println!(rt; "free");
    rows(rt, &bucket);
}
