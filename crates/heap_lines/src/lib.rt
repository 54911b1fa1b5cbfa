// What a line asks of the program `heap_calls`. The function answers every line; specs/ says what.

#![tactic(auto)]

mod commands;

pub use commands::command_of;

// The calls on a heap that change it.
#[derive(Clone, Copy)]
pub enum Call {
    Add(u64, u64),
    Init(u64, u64),
    Alloc(u64, u64),
    Free(u64, u64, u64),
    Zero(u64, u64, u64),
}

// What a line can put past every rule: a word of the arena or of the ledger, a head, or another field of the record.
#[derive(Clone, Copy)]
pub enum Cell {
    Arena(u64),
    Ledger(u64),
    Head(u64),
    Count,
    User,
    Allocated,
    Total,
    Order,
}

// What a line asks for.
#[derive(Clone, Copy)]
pub enum Command {
    Make(u64, u64, u64),
    Remake(u64),
    Call(Call),
    List(u64),
    Stats,
    Set(Cell, u64),
}
