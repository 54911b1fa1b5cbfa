// The words of a heap's ledger, which records the granted blocks: their fields, where a record stands, a record entered, and one struck out.

#![tactic(auto)]

mod fields;
mod records;

pub use fields::{address_of, class_of, gap_of, record_word, requested_of};
pub use records::{enter, find, strike};
