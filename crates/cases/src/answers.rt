// Answer words as text: what was asked, then a refusal's number, or the values.
use std::fmt;

// From here on a word is a refusal: its number, and behind that the page that 2 names.
pub const REFUSALS: u64 = 0x8000_0000_0000_0000;

// What a put answers for a new row.
const NEW: u64 = 0x8000_0000;

// A place's page has 32 bits and its slot 16; its volume stands behind them.
const PAGES: u64 = 0x1_0000_0000;

const SLOTS: u64 = 0x1_0000;

#[derive(Clone, Copy)]
struct Refusal {
    number: u64,
    page: u64,
}

impl fmt::Display for Refusal {
    fn fmt<W: fmt::Write>(&self, f: &mut fmt::Formatter<W>) -> fmt::Result {
        let number = self.number;
        let page = self.page;
        if number == 2 {
            write!(f, "refused 2 page {page}")
        } else {
            write!(f, "refused {number}")
        }
    }
}

// The answer in a word, or the refusal.
fn answer(word: u64) -> Result<u64, Refusal> {
    if word < REFUSALS {
        Ok(word)
    } else {
        Err(Refusal {
            number: word % 256,
            page: word / 256 % PAGES,
        })
    }
}

// A line for a call that answers a number.
pub fn say_number<R: Print>(rt: &R, asked: &str, word: u64) {
    let _ = match answer(word) {
        Ok(number) => println!(rt; "{asked} {number}"),
        Err(refusal) => println!(rt; "{asked} {refusal}"),
    };
}

// A line for a call that answers a place, or that the row is new.
pub fn say_place<R: Print>(rt: &R, asked: &str, word: u64) {
    let _ = match answer(word) {
        Ok(NEW) => println!(rt; "{asked} new"),
        Ok(place) => {
            let page = place % PAGES;
            let slot = place / PAGES % SLOTS;
            let volume = place / PAGES / SLOTS;
            println!(rt; "{asked} {page} {slot} {volume}")
        }
        Err(refusal) => println!(rt; "{asked} {refusal}"),
    };
}
