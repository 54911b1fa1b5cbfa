// The part that the grants share once the block is found: it is halved in place towards the run.

#![tactic(auto)]

mod halving;

pub use halving::halve;
