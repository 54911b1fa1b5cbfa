// Whether a frame table is sound, by one pass over its words: specs/Sound.antt of `table` says when it is.

#![tactic(auto)]

mod scan;

pub use scan::sound;
