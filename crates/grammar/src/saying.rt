// A line as a name and up to three numbers: the grammar that the programs share.
ghost use Rattle.std.specs.Prelude.{◌≡◌, ◌≤◌, length, take};
ghost use Rattle.grammar.specs.Line.{line_of, line_said, name_length, same};
ghost use Rattle.grammar.specs.Next.{NextIs};

use crate::numbers::number;
use crate::{BadLine, Said};
use lines::piece_end;

// What follows the word that ends at `at`, where a space stands or the line ends: nothing, or a number and the place where it ends.
fn next(line: &[u8], at: usize) -> Result<Option<(u64, usize)>, BadLine>
    ensures { NextIs line.now at result }
{
    if line.len() <= at {
        return Ok(None);
    }
    let from = at + 1;
    let rest = &line[from..];
    let n = piece_end(rest, b' ');
    let value = number(&rest[..n]).ok_or(BadLine)?;
    Ok(Some((value, from + n)))
}

// The name's length and the numbers of a line.
pub fn say(line: &[u8]) -> Result<Said, BadLine>
    ensures result_value { line_said line.now result ≡ line_of line.now }
    ensures result_in_bounds { name_length result ≤ length line.now }
{
    if 80 < line.len() {
        return Err(BadLine);
    }
    let name = piece_end(line, b' ');
    let Some((a, first)) = next(line, name)? else {
        return Ok(Said::Name(name));
    };
    let Some((b, second)) = next(line, first)? else {
        return Ok(Said::One(name, a));
    };
    let Some((c, third)) = next(line, second)? else {
        return Ok(Said::Two(name, a, b));
    };
    match next(line, third)? {
        None => Ok(Said::Three(name, a, b, c)),
        Some(_) => Err(BadLine),
    }
}

// Whether the first len bytes of a line are this name.
pub fn named(line: &[u8], len: usize, name: &[u8]) -> bool
    ensures { result ≡ same (take len line.now) name.now }
{
    if line.len() < len {
        return line == name;
    }
    &line[..len] == name
}
