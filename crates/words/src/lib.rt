// Words by the run, of a table or a ledger: zeros, and a tail moved in place.

#![tactic(auto)]

mod scan;
mod splice;

pub use scan::zeros_from;
pub use splice::{clear, move_tail};
