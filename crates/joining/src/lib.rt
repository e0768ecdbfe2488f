// Buckets joined: how far up a prefix's rows fit, and their rows packed into one page.
#![tactic(auto)]

mod join;
mod prefix;

pub use join::join_lent;
pub use prefix::climb;
