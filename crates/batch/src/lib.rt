// A whole tender in one call: many puts on a store that is checked once.
#![tactic(auto)]

mod parts;
mod runs;
mod tender;

pub use parts::word_place;
pub use tender::put_all;
