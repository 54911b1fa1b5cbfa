// What `heap_calls` prints at its end: all that is lent.

#![tactic(auto)]

mod listing;

pub use listing::put_all;
