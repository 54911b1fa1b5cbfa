// The lists of free blocks of a heap, gone through once: whether each is a list of blocks in their place, and the bytes of all. A part of the
// test of a heap, in `heap_sound`.

#![tactic(auto)]

mod free;

pub use free::{free_lists, placed};
