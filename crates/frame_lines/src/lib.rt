// The lines of the program `calls`: the command that a line is, and the lines that it prints. Nothing here knows the words of a table.
// Every function answers every input; specs/ says what each answers and writes.

#![tactic(auto)]

mod commands;
mod show;

pub use commands::command_of;
pub use show::{put_heading, put_record, put_reply};

// The commands of `calls`.
#[derive(Clone, Copy)]
pub enum Command {
    Order(u64),
    Add(u64, u64),
    Alloc(u64),
    At(u64, u64),
    Free(u64, u64),
}
