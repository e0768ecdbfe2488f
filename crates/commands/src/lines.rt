// Lines as commands: words with one space between each two.
ghost use Rattle.std.specs.Prelude.{◌≡◌, List, ◌∷◌, ◌++◌, ℕ, ◌≤◌, MatchOption};
ghost use Rattle.std.specs.Option.{unwrap_or};
ghost use Rattle.commands.specs.Lines.{Parted, Places, Means, Spaceless, Spoken, PutBy, Begins, format_word};
ghost use Rattle.commands.specs.declared.Command.TheVariants.{Unknown};

use super::codes::decode;
use super::numbers::{read_number, read_signed};
use crate::{Command, Verb};
use page::Place;

// The word before the first space, and what stands behind that.
fn parted(w: &[u8]) -> Option<(&[u8], &[u8])>
    ensures { MatchOption result (Spaceless w.now) (λ p. Parted w.now p.0.now p.1.now) }
{
    let e = w.iter().position(|b| *b == b' ')?;
    Some((&w[..e], &w[e + 1..]))
}

// The place that a line's end writes.
pub fn read_place(w: &[u8]) -> Option<Place>
    ensures { Places w.now result }
{
    let (page, rest) = parted(w)?;
    let (slot, volume) = parted(rest)?;
    let p = read_signed(page, 2147483647)?;
    let s = read_signed(slot, 32767)?;
    let v = read_signed(volume, 32767)?;
    Some(Place {
        page: p as i32,
        slot: s as i16,
        volume: v as i16,
    })
}

// A line of one word.
fn bare(line: &[u8]) -> Command
    requires { Spaceless line.now × Spoken line.now }
    ensures { (k : List ℕ) → Means line.now k result }
{
    match line {
        b"count" => Command::Count,
        b"list" => Command::Listing,
        b"check" => Command::Check,
        b"counts" => Command::Counts,
        _ => Command::Unknown,
    }
}

// What stands after the word format: a number of pages, and their size or nothing.
fn format(rest: &[u8]) -> Option<Command>
    ensures { (k : List ℕ) → Means (format_word ++ (32 ∷ rest.now)) k (unwrap_or result Unknown) }
{
    match parted(rest) {
        None => Some(Command::Format(read_number(rest)?, 1024)),
        Some((pages, size)) => Some(Command::Format(read_number(pages)?, read_number(size)?)),
    }
}

// What stands after the word of a put: a code and a place.
// Stays: the C header has the mode as this number, and Lines:PutBy says which word stands for which.
fn put(rest: &[u8], code: &mut [u8], mode: u64) -> Option<Command>
    ensures { (w : List ℕ) → PutBy w mode → Means (w ++ (32 ∷ rest.now)) code.new (unwrap_or result Unknown) }
{
    let (text, behind) = parted(rest)?;
    let place = read_place(behind)?;
    Some(Command::Put(decode(text, code)?, place, mode))
}

// What a word asks for that stands before others.
fn verb(word: &[u8]) -> Option<Verb>
    ensures { Begins word.now result }
{
    match word {
        b"put" => Some(Verb::Puts(0)),
        b"add" => Some(Verb::Puts(1)),
        b"move" => Some(Verb::Puts(2)),
        b"lookup" => Some(Verb::Looks),
        b"remove" => Some(Verb::Removes),
        b"report" => Some(Verb::Reports),
        b"format" => Some(Verb::Formats),
        b"row" => Some(Verb::Rows),
        b"inspect" => Some(Verb::Inspects),
        _ => None,
    }
}

// A word and what stands after it.
fn phrase(word: &[u8], rest: &[u8], code: &mut [u8]) -> Option<Command>
    requires { Spaceless word.now × Spoken (word.now ++ (32 ∷ rest.now)) }
    ensures { Means (word.now ++ (32 ∷ rest.now)) code.new (unwrap_or result Unknown) }
{
    match verb(word)? {
        Verb::Puts(mode) => put(rest, code, mode),
        Verb::Looks => Some(Command::Lookup(decode(rest, code)?)),
        Verb::Removes => Some(Command::Remove(decode(rest, code)?)),
        Verb::Reports => Some(Command::Report),
        Verb::Formats => format(rest),
        Verb::Rows => Some(Command::Row(read_number(rest)?)),
        Verb::Inspects => Some(Command::Inspect(read_number(rest)?)),
    }
}

// What a line asks, with its code at the start of the buffer. A code that is longer than the buffer is unknown.
pub fn parse(line: &[u8], code: &mut [u8]) -> Command
    ensures { Means line.now code.new result }
{
    if let [] | [b'#', ..] = line {
        return Command::Nothing;
    }
    match parted(line) {
        None => bare(line),
        Some((word, rest)) => phrase(word, rest, code).unwrap_or(Command::Unknown),
    }
}
