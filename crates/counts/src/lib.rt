// The counts in page 0: worked out from the pages, read, and kept.
#![tactic(auto)]

mod kept;
mod tallies;

pub use kept::{deepest_counted, lower, raise, rows_counted};
pub use tallies::{
    Tallies, are_counts, count_down, count_up, read_counts, tally, write_counted, write_counts,
};
