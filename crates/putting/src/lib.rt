// Put: a known code's place, a new row in its bucket, a new bucket, a split.
#![tactic(auto)]

mod bucket;
mod checked;
mod putting;
mod split;
mod vacant;
mod weigh;

pub use checked::put_checked;
pub use putting::{put, put_row};
