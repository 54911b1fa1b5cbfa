// The words of a frame table: their fields, and where a frame is in a sound table.

#![tactic(auto)]

mod layout;
mod lookup;
mod pack;

pub use layout::{class_of, count_of, end_of, mark_of, order_of, size_of, start_of};
pub use lookup::place;
pub use pack::{head_word, record_word};
