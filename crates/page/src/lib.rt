// A bucket page of any length to 16,384 bytes: its rows found, put in, taken out and packed.
#![tactic(auto)]

mod add;
mod insert;
mod pack;
mod places;
mod read;
mod remove;

pub use add::insert_row;
pub use insert::insert_at_frontier;
pub use pack::{clear_page, new_page, pack_into, pack_page, start_page};
pub use places::{load_place, negative, read_place, set_place, store_place};
pub use read::{code_at, compare_slot, find_code, place_at, read_code};
pub use remove::{end_of, remove_slot, top_of};

// A row place.
#[derive(Clone, Copy)]
pub struct Place {
    pub page: i32,
    pub slot: i16,
    pub volume: i16,
}

#[derive(Clone, Copy)]
pub struct Extent {
    pub off: usize,
    pub len: usize,
}
