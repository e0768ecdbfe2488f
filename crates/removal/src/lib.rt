// Remove: a row taken out, and buckets joined where their rows fit together.
#![tactic(auto)]

mod removal;

pub use removal::{remove, remove_given, remove_row};
