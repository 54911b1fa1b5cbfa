// The heap over an arena: its record and its making. When it is sound is said in `heap_blocks`, and tested in `heap_sound`.

#![tactic(auto)]

mod making;
mod ranges;

use answers::Answer;
pub use ranges::ranges_ok;

// As C keeps it, too: 38 words in this order.
// ORDER, the heads of the 33 lists of free blocks, the number of ledger records, and three counts of bytes.
#[repr(C)]
#[derive(Clone, Copy)]
pub struct Heap {
    pub order: u64,
    pub heads: [u64; 33],
    pub count: u64,
    pub user: u64,
    pub allocated: u64,
    pub total: u64,
}

// What a call answers, and the record that it leaves.
#[derive(Clone, Copy)]
pub struct Reply {
    pub answer: Answer,
    pub heap: Heap,
}
