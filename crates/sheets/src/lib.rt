// A sheet's file laid out as numbers, byte by byte and line by line.
#![tactic(auto)]

mod laying;
mod reading;

// A sheet as far as it is read.
#[derive(Drop)]
pub struct Sheet {
    // its rows; one more than the last rank; the line of the first row that breaks a rule, and of the first line that is of another form
    pub rows: usize,
    pub low: u64,
    pub bad: Option<usize>,
    pub wrong: Option<usize>,
    // the line that is being read: how many came before it, how much of it is there, whether it is too long
    pub number: usize,
    pub fill: usize,
    // Stays: specs/Laying:BytesRead and SheetRoom speak of the fill of a line that is too long, too.
    pub over: bool,
}
