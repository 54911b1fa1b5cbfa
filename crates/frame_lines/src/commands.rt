// The names of the commands of `calls`, and how many numbers each takes.
ghost use Rattle.std.specs.Prelude.{◌≡◌};
ghost use Rattle.frame_lines.specs.Command.{command_of};

use crate::Command;
use grammar::{BadLine, Said, named, say};

// The command that a line is.
pub fn command_of(line: &[u8]) -> Result<Command, BadLine>
    ensures { result ≡ command_of line.now }
{
    match say(line)? {
        Said::One(n, a) if named(line, n, b"order") => Ok(Command::Order(a)),
        Said::One(n, a) if named(line, n, b"alloc") => Ok(Command::Alloc(a)),
        Said::Two(n, a, b) if named(line, n, b"add") => Ok(Command::Add(a, b)),
        Said::Two(n, a, b) if named(line, n, b"at") => Ok(Command::At(a, b)),
        Said::Two(n, a, b) if named(line, n, b"free") => Ok(Command::Free(a, b)),
        _ => Err(BadLine),
    }
}
