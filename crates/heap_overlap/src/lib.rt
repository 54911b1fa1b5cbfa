// Whether a block of a heap, free or granted, has a byte in a range: what is asked before a range is added, in `heap_add`.

#![tactic(auto)]

mod overlap;

pub use overlap::{free_meets, granted_meets};
