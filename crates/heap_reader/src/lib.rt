// A reader over one list of a heap, as the Rust's `iter`: it holds the arena and the place it has come to, and yields the list's nodes in
// order, and then nothing. The functions on the reader are thin over functions on the arena and numbers.

#![tactic(auto)]

mod listing;
mod plain;
mod reading;

pub use listing::nodes;
pub use plain::{start_of, step_at};
pub use reading::{advance, first, following, next, open};

// Kept: the wrong programs step_after_a_refusal, promise_next_never_refused and promise_advance_forgets_the_refusal give a reader a refusal, so its number stays; and 0 is no node in `step_at`, under YieldsTheList.
// The address of the node to be yielded next, 0 where there is none, and 0 or the number of the refusal to read.
#[derive(Clone, Copy)]
pub struct Reader<'a> {
    pub arena: &'a [u64],
    pub at: u64,
    pub number: u64,
}

// The node that is yielded, 0 where there is none, and the reader's numbers afterwards.
#[derive(Clone, Copy)]
pub struct Step {
    pub node: u64,
    pub at: u64,
    pub number: u64,
}
