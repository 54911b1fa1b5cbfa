// What the calls on a sound frame table share: specs/Deciding.antt says what a decision over blocks is, specs/Carried.antt what it comes to
// over words, and the passes over the records are here. Adding, granting and releasing are crates of their own.

#![tactic(auto)]

mod picking;
mod tally;

pub use picking::pick;
pub use tally::{Figures, count_frames};
