// The test of a heap, which every call makes first: whether it is sound, as heap_blocks/specs/Sound.antt defines it.

#![tactic(auto)]

mod soundness;

pub use soundness::sound;
