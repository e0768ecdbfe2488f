// Every refusal but 6 and 7, reached through the call, in the document's order: each line has the faults of the next ones too.
use crate::answers::{say_number, say_place};
use crate::show::{lines, part};

// A code longer than any.
const LONG: [u8; 65] = [b'a'; 65];

// A put: what is said of it, its code, place and mode.
type Put = (&'static str, &'static [u8], (i32, i16, i16), u64);

// "a" is known and "b" is not.
const ON_SHORT: [Put; 1] = [(
    "put, 3071 bytes, no code, negative page, mode 3:",
    b"",
    (-1, 2, 0),
    3,
)];

const ON_DAMAGED: [Put; 10] = [
    (
        "put, no code, negative page, mode 3, damaged store:",
        b"",
        (-1, 2, 0),
        3,
    ),
    (
        "put, 65 bytes of code, negative page, mode 3, damaged store:",
        &LONG,
        (-1, 2, 0),
        3,
    ),
    (
        "put, negative page, mode 3, damaged store:",
        b"b",
        (-1, 2, 0),
        3,
    ),
    (
        "put, negative slot, mode 3, damaged store:",
        b"b",
        (7, -1, 0),
        3,
    ),
    (
        "put, negative volume, mode 3, damaged store:",
        b"b",
        (7, 2, -1),
        3,
    ),
    ("put, mode 3, damaged store:", b"a", (7, 2, 0), 3),
    (
        "put, the largest mode, damaged store:",
        b"a",
        (7, 2, 0),
        u64::MAX,
    ),
    (
        "put, known code, only if new, damaged store:",
        b"a",
        (7, 2, 0),
        1,
    ),
    (
        "put, new code, only if known, damaged store:",
        b"b",
        (7, 2, 0),
        2,
    ),
    ("put, damaged store:", b"b", (7, 2, 0), 0),
];

const ON_SOUND: [Put; 3] = [
    ("put, known code, only if new:", b"a", (7, 2, 0), 1),
    ("put, new code, only if known:", b"b", (7, 2, 0), 2),
    ("put, known code, negative page:", b"a", (-1, 2, 0), 0),
];

// The store of case 10, the same with a fault in page 1, and that without its last byte.
#[derive(Clone, Copy)]
struct Stores<'a> {
    sound: &'a [u8],
    damaged: &'a [u8],
    short: &'a [u8],
}

fn checks<R: Print>(rt: &R, on: Stores<'_>) {
    for (asked, word) in [
        ("check, 3071 bytes:", lots_c::lots_check(on.short)),
        ("check, damaged store:", lots_c::lots_check(on.damaged)),
        ("check:", lots_c::lots_check(on.sound)),
        ("count, 3071 bytes:", lots_c::lots_count(on.short)),
        ("count, damaged store:", lots_c::lots_count(on.damaged)),
        ("count:", lots_c::lots_count(on.sound)),
    ] {
        say_number(rt, asked, word);
    }
}

fn lookups<R: Print>(rt: &R, on: Stores<'_>) {
    for (asked, word) in [
        (
            "lookup, 3071 bytes, no code:",
            lots_c::lots_lookup(on.short, b""),
        ),
        (
            "lookup, no code, damaged store:",
            lots_c::lots_lookup(on.damaged, b""),
        ),
        (
            "lookup, 65 bytes of code, damaged store:",
            lots_c::lots_lookup(on.damaged, &LONG),
        ),
        (
            "lookup, damaged store:",
            lots_c::lots_lookup(on.damaged, b"b"),
        ),
        ("lookup, not there:", lots_c::lots_lookup(on.sound, b"b")),
        ("lookup:", lots_c::lots_lookup(on.sound, b"a")),
    ] {
        say_place(rt, asked, word);
    }
}

fn rows<R: Print>(rt: &R, on: Stores<'_>) {
    let mut out = [0u8; 64];
    let mut len = 0;
    for (asked, store, n, room) in [
        ("row, 3071 bytes, output of 63:", on.short, 1, 63),
        ("row, output of 63, damaged store:", on.damaged, 1, 63),
        ("row 1, damaged store:", on.damaged, 1, 64),
        ("row 1:", on.sound, 1, 64),
        ("row 0:", on.sound, 0, 64),
    ] {
        let word = lots_c::lots_row(store, n, part_mut(&mut out, room), &mut len);
        say_place(rt, asked, word);
    }
    say_number(rt, "its length:", len as u64);
}

// The first bytes, where there are so many.
fn part_mut(bytes: &mut [u8; 64], room: usize) -> &mut [u8] {
    &mut bytes[..room.min(64)]
}

// The store of case 10, and the same with a fault in page 1.
pub fn all<R: Print>(rt: &R, sound: &[u8], damaged: &[u8]) {
    let on = Stores {
        sound,
        damaged,
        short: part(damaged, 0, 3071),
    };
    checks(rt, on);
    lookups(rt, on);
    rows(rt, on);
    let free = [0u8; 1024];
    inspections(
        rt,
        part(sound, 2048, 3072),
        part(damaged, 1024, 2048),
        part(damaged, 1024, 2047),
        &free,
    );
}

// A bucket page, one that is none, that one byte short, and a free page.
fn inspections<R: Print>(rt: &R, bucket: &[u8], other: &[u8], short: &[u8], free: &[u8]) {
    let mut out = [0u8; 64];
    let mut len = 0;
    for (asked, page, slot, room) in [
        ("inspection, 1023 bytes, output of 63:", short, 1, 63),
        ("inspection, output of 63, no bucket page:", other, 1, 63),
        ("inspection, slot 1, no bucket page:", other, 1, 64),
        ("inspection, slot 1:", bucket, 1, 64),
        ("inspection, slot 0, free page:", free, 0, 64),
        ("inspection, slot 0:", bucket, 0, 64),
    ] {
        let word = lots_c::lots_inspect(page, slot, part_mut(&mut out, room), &mut len);
        say_place(rt, asked, word);
    }
    say_number(rt, "its length:", len as u64);
}

fn puts<R: Print>(rt: &R, store: &mut [u8], puts: &[Put]) {
    for (asked, code, (page, slot, volume), mode) in puts {
        let word = lots_c::lots_put(store, code, *page, *slot, *volume, *mode);
        say_place(rt, asked, word);
    }
}

fn removes<R: Print>(rt: &R, sound: &mut [u8], damaged: &mut [u8], short: &mut [u8]) {
    for (asked, word) in [
        (
            "remove, 3071 bytes, no code:",
            lots_c::lots_remove(short, b""),
        ),
        (
            "remove, no code, damaged store:",
            lots_c::lots_remove(damaged, b""),
        ),
        (
            "remove, 65 bytes of code, damaged store:",
            lots_c::lots_remove(damaged, &LONG),
        ),
        ("remove, damaged store:", lots_c::lots_remove(damaged, b"a")),
        ("remove, not there:", lots_c::lots_remove(sound, b"b")),
    ] {
        say_place(rt, asked, word);
    }
}

// The same two stores, lent for writing: they are left as they were.
pub fn of_writes<R: Print>(rt: &R, sound: &mut [u8], damaged: &mut [u8]) {
    let mut short = [0xAAu8; 3071];
    say_number(
        rt,
        "format, 3071 bytes:",
        lots_c::lots_format(&mut short, 1024),
    );
    puts(rt, &mut short, &ON_SHORT);
    puts(rt, damaged, &ON_DAMAGED);
    puts(rt, sound, &ON_SOUND);
    removes(rt, sound, damaged, &mut short);
    let _ = println!(rt; "every byte as before");
    lines(rt, sound);
    let _ = println!(rt; "and of the damaged store");
    lines(rt, damaged);
}
