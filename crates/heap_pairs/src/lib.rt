// Whether blocks of a heap are disjoint: the part of the test of a heap, in `heap_sound`, that compares them in pairs.

#![tactic(auto)]

mod pairs;

pub use pairs::free_apart;
