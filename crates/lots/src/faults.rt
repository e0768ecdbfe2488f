// Why an unknown line is unknown, in the order in which one looks: its word, its code's text, a number, the rest.
use commands::Fault;

// The word before the first space, and what stands behind that; nothing where there is none.
fn parted(w: &[u8]) -> (&[u8], &[u8]) {
    match w.iter().position(|b| *b == b' ') {
        Some(e) => (&w[..e], &w[e + 1..]),
        None => (w, &[]),
    }
}

fn takes_place(word: &[u8]) -> bool {
    matches!(word, b"put" | b"add" | b"move")
}

fn takes_code(word: &[u8]) -> bool {
    takes_place(word) || matches!(word, b"lookup" | b"remove")
}

fn takes_number(word: &[u8]) -> bool {
    matches!(word, b"format" | b"row" | b"inspect")
}

fn stands_alone(word: &[u8]) -> bool {
    matches!(
        word,
        b"count" | b"list" | b"check" | b"counts" | b"help" | b"quit"
    )
}

// Whether a % has no two hexadecimal digits behind it, or a byte is none of 0x20 to 0x7E.
fn bad_escape(w: &[u8]) -> bool {
    for i in 0..w.len() {
        match &w[i..] {
            [b'%', x, y, ..] if x.is_ascii_hexdigit() && y.is_ascii_hexdigit() => (),
            [b'%', ..] => return true,
            [b' '..=b'~', ..] => (),
            _ => return true,
        }
    }
    false
}

// Whether a word is digits, a - before them or not.
fn is_number(word: &[u8]) -> bool {
    let digits = word.strip_prefix(b"-").unwrap_or(word);
    !digits.is_empty() && digits.iter().all(|b| b.is_ascii_digit())
}

// Whether a number is all that stands behind the word, or behind format two.
// Stays: the arms test what they bind, which is no plainer as one condition.
fn is_count(word: &[u8], rest: &[u8]) -> bool {
    let mut words = rest.split(|b| *b == b' ');
    match (words.next(), words.next(), words.next()) {
        (Some(n), None, _) => is_number(n),
        (Some(n), Some(size), None) => {
            matches!(word, b"format") && is_number(n) && is_number(size)
        }
        _ => false,
    }
}

// Whether a code and a place are all that stands behind the word: a word and three numbers.
// Stays: the arm tests what it binds, which is no plainer as one condition.
fn is_place(rest: &[u8]) -> bool {
    let mut words = rest.split(|b| *b == b' ').skip(1);
    match (words.next(), words.next(), words.next(), words.next()) {
        (Some(page), Some(slot), Some(volume), None) => {
            is_number(page) && is_number(slot) && is_number(volume)
        }
        _ => false,
    }
}

// Whether the words are those of the command, so that a number in them is too large.
fn is_range(word: &[u8], rest: &[u8]) -> bool {
    (takes_number(word) && is_count(word, rest)) || (takes_place(word) && is_place(rest))
}

fn is_word(word: &[u8]) -> bool {
    takes_code(word) || takes_number(word) || stands_alone(word) || matches!(word, b"report")
}

pub fn fault_of(line: &[u8]) -> Fault {
    let (word, rest) = parted(line);
    if !is_word(word) {
        Fault::Word
    } else if takes_code(word) && bad_escape(line) {
        Fault::Escape
    } else if is_range(word, rest) {
        Fault::Range
    } else {
        Fault::Form
    }
}
