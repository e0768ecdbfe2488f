// Prints the hash of each published FNV-1a vector, then of each record on standard input: a byte that
// says how many, and so many bytes. The outside test sends random records and compares.
#![tactic(auto)]

ghost use Rattle.std.specs.Prelude.{◌≤◌, length};

use std::io::Read;

// The first and the longest of the published texts, in their order.
const TEXTS: [&[u8]; 27] = [
    b"",
    b"a",
    b"b",
    b"c",
    b"d",
    b"e",
    b"f",
    b"fo",
    b"foo",
    b"foob",
    b"fooba",
    b"foobar",
    b"ch",
    b"cho",
    b"chon",
    b"chong",
    b"chongo",
    b"chongo ",
    b"chongo w",
    b"chongo wa",
    b"chongo was",
    b"chongo was ",
    b"chongo was h",
    b"chongo was he",
    b"chongo was her",
    b"chongo was here",
    b"chongo was here!",
];

// The FNV authors' binary ones.
const BINARY: [[u8; 4]; 8] = [
    *b"\xff\x00\x00\x01",
    *b"\x01\x00\x00\xff",
    *b"\xff\x00\x00\x02",
    *b"\x02\x00\x00\xff",
    *b"\xff\x00\x00\x03",
    *b"\x03\x00\x00\xff",
    *b"\xff\x00\x00\x04",
    *b"\x04\x00\x00\xff",
];

fn show<R: Print>(rt: &R, code: &[u8]) {
    let h = hash::hash(code);
    let _ = println!(rt; "{h:08x}");
}

// Reads until the buffer is full or nothing more comes: how many bytes came.
fn read_full<I: Read>(input: &mut I, buf: &mut [u8]) -> usize
    ensures { result ≤ length buf.new }
{
    let mut done = 0;
    // Stays: a read brings as many bytes as it likes, and by `bytes` each byte is a call of the system: 15 to 40 times the time was measured.
    while done < buf.len() {
        let n = input.read(&mut buf[done..]).unwrap_or(0);
        if n == 0 {
            return done;
        }
        done += n;
    }
    done
}

// Takes one record and shows its code, as far as that goes; whether there was a record.
fn take_record<R: Print, I: Read>(rt: &R, input: &mut I) -> bool {
    let mut size = [0u8; 1];
    if read_full(input, &mut size) == 0 {
        return false;
    }
    let mut code = [0u8; 255];
    let n = read_full(input, &mut code[..usize::from(size[0])]);
    show(rt, &code[..n]);
    true
}

fn main(rt: HostRuntime) {
    for code in TEXTS {
        show(&rt, code);
    }
    for code in BINARY {
        show(&rt, &code);
    }
    let mut input = rt.reader();
    // A proved loop has to end, and nothing says that the input does: so many records no run uses up.
    for _ in 0..u64::MAX {
        if !take_record(&rt, &mut input) {
            return;
        }
    }
}
