// The names of the commands, and how many numbers each takes.
ghost use Rattle.std.specs.Prelude.{◌≡◌};
ghost use Rattle.heap_lines.specs.Command.{command_of};

use crate::{Call, Cell, Command};
use grammar::{BadLine, Said, named, say};

// The command that a line is.
#[tactic(auto, unfolding(crate::specs::Command::command_of))]
pub fn command_of(line: &[u8]) -> Result<Command, BadLine>
    ensures { result ≡ command_of line.now }
{
    match say(line)? {
        Said::Name(n) if named(line, n, b"stats") => Ok(Command::Stats),
        Said::One(n, a) if named(line, n, b"remake") => Ok(Command::Remake(a)),
        Said::One(n, a) if named(line, n, b"list") => Ok(Command::List(a)),
        Said::One(n, a) if named(line, n, b"setcount") => Ok(Command::Set(Cell::Count, a)),
        Said::One(n, a) if named(line, n, b"setuser") => Ok(Command::Set(Cell::User, a)),
        Said::One(n, a) if named(line, n, b"setallocated") => Ok(Command::Set(Cell::Allocated, a)),
        Said::One(n, a) if named(line, n, b"settotal") => Ok(Command::Set(Cell::Total, a)),
        Said::One(n, a) if named(line, n, b"setorder") => Ok(Command::Set(Cell::Order, a)),
        Said::Two(n, a, b) if named(line, n, b"add") => Ok(Command::Call(Call::Add(a, b))),
        Said::Two(n, a, b) if named(line, n, b"init") => Ok(Command::Call(Call::Init(a, b))),
        Said::Two(n, a, b) if named(line, n, b"alloc") => Ok(Command::Call(Call::Alloc(a, b))),
        Said::Two(n, a, b) if named(line, n, b"write") => Ok(Command::Set(Cell::Arena(a), b)),
        Said::Two(n, a, b) if named(line, n, b"setledger") => Ok(Command::Set(Cell::Ledger(a), b)),
        Said::Two(n, a, b) if named(line, n, b"sethead") => Ok(Command::Set(Cell::Head(a), b)),
        Said::Three(n, a, b, c) if named(line, n, b"heap") => Ok(Command::Make(a, b, c)),
        Said::Three(n, a, b, c) if named(line, n, b"free") => Ok(Command::Call(Call::Free(
            a, b, c,
        ))),
        Said::Three(n, a, b, c) if named(line, n, b"zero") => Ok(Command::Call(Call::Zero(
            a, b, c,
        ))),
        _ => Err(BadLine),
    }
}
