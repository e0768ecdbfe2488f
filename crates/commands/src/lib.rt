// One line of the program `lots` read as a command, and answers written as lines.
#![tactic(auto)]

mod answers;
mod codes;
mod lines;
mod numbers;
mod sheet;
mod sums;

pub use answers::{answer_line, fault_line, number_line, row_line};
pub use lines::parse;
use page::Place;
pub use sheet::{is_blank, sheet_line};
pub use sums::{
    amount_line, bad_row_line, no_row_line, not_there_line, rows_line, rows_sum_line, sum_line,
    unread_line,
};

// What a line asks. The code of a put, a lookup or a remove stands in the buffer that was lent; here is its length.
#[derive(Clone, Copy)]
pub enum Command {
    Nothing,
    Unknown,
    // so many pages, and their size
    Format(usize, usize),
    // with the mode that its word stands for
    Put(usize, Place, u64),
    Lookup(usize),
    Remove(usize),
    Count,
    Row(usize),
    Listing,
    Check,
    // filled in, in a store that has none
    Counts,
    Inspect(usize),
    // of a sheet, whose name is the rest of the line
    Report,
}

// What a line of a sheet is: nothing, a row's place and cents, or of another form.
// Stays: an Option<Option<(Place, i64)>> would not say which none is a passed line and which a wrong one.
#[derive(Clone, Copy)]
pub enum SheetLine {
    Passed,
    Amount(Place, i64),
    Other,
}

// Why a line is not obeyed, where no call was asked: its word, its code's text, a number, its words, its length; Filled: the file is not empty; Room: the run has no room for so large a store.
#[derive(Clone, Copy)]
pub enum Fault {
    Word,
    Escape,
    Range,
    Form,
    Long,
    Filled,
    Room,
}

// One byte of a code, and how many bytes of text wrote it.
#[derive(Clone, Copy)]
struct Glyph {
    byte: u8,
    size: usize,
}

// What a word asks for that stands before others; a put has the mode that its word stands for.
#[derive(Clone, Copy)]
enum Verb {
    Puts(u64),
    Looks,
    Removes,
    Reports,
    Formats,
    Rows,
    Inspects,
}
