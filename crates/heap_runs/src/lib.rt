// What a command of `heap_calls` does: to the record, to the words that are lent, and what is then to be printed.
// specs/Run says what it leaves, specs/Text what it prints.

#![tactic(auto)]

mod running;
mod setting;
mod walking;

ghost use Rattle.std.specs.Prelude.{◌≤◌};

use answers::Answer;
use heap_state::Heap;
pub use running::run;

// The heap record, and how many words of the arena and of the ledger are lent.
#[derive(Clone, Copy)]
pub struct Lent {
    pub heap: Heap,
    pub words: usize,
    pub records: usize,
}

// All that the program holds. What is lent are the first words of the arena and of the ledger.
#[derive(Drop)]
pub struct Machine {
    pub lent: Lent,
    pub arena: [u64; 4096],
    pub ledger: [u64; 512],
    pub ghost words_fit: { lent.words ≤ 4096 },
    pub ghost records_fit: { lent.records ≤ 512 },
}

// Kept: a bad line is one of the things that are printed and no error: the program goes on.
// What a line prints: a reply, the three figures, the nodes of a list by its head and their count, that something was set, or that it is no call.
#[derive(Clone, Copy)]
pub enum Printed {
    Reply(Answer),
    Figures(Answer, Answer, Answer),
    Nodes(u64, usize),
    Set,
    BadLine,
}

// What a command leaves and prints.
#[derive(Clone, Copy)]
pub struct Ran {
    pub lent: Lent,
    pub line: Printed,
}
