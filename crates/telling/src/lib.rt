// What the command tells on standard output: answers, the rows of the listing, the rows of a page.
#![tactic(auto)]

mod rows;
pub mod say;
mod slots;

pub use rows::list_rows;
pub use slots::page_rows;

// A buffer of lines: the slot behind the rows that it has, and its length.
#[derive(Clone, Copy)]
pub struct Lined {
    pub slot: usize,
    pub len: usize,
}
