// The ledger's records of a heap, gone through once: whether each is well formed and its block in its place, and their sums. A part of the test of
// a heap, in `heap_sound`.

#![tactic(auto)]

mod granted;

pub use granted::records;

// The sums of requested bytes and of block sizes, which a test of ledger records tells if all is well.
#[derive(Clone, Copy)]
pub struct Sums {
    pub user: u64,
    pub allocated: u64,
}
