// Whether bytes are a store: the length, and the check's passes in document order.
#![tactic(auto)]

mod checks;
mod entry_runs;
mod head;
mod pages;
mod parted;

pub use checks::{accept, first_bad, first_bad_before};
pub use head::said_shape;
