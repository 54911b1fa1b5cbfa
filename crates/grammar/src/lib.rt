// What a line says: a name and up to three numbers, the grammar that the programs share.
// Every function answers every input; specs/ says what each answers.

#![tactic(auto)]

mod numbers;
mod saying;

pub use saying::{named, say};

// A line as its words say it: how many bytes its name has, and its numbers.
// Kept: a name is told by its length and not as a slice, so that a line has one answer (proofs/OneSaying): a slice has an address too.
#[derive(Clone, Copy)]
pub enum Said {
    Name(usize),
    One(usize, u64),
    Two(usize, u64, u64),
    Three(usize, u64, u64, u64),
}

// A bad line: too long, with a word after its name that is no number, with more than three numbers, or no command of a program.
#[derive(Debug, Clone, Copy, PartialEq, Eq)]
pub struct BadLine;
