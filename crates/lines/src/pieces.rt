// Where the first piece of some bytes ends. Words and lines are both cut by it.
ghost use Rattle.lines.specs.Pieces.{PieceEnds};

// The place of the first separator, or the number of bytes where there is none.
pub fn piece_end(bytes: &[u8], separator: u8) -> usize
    ensures { PieceEnds separator bytes.now result }
{
    bytes
        .iter()
        .position(|b| *b == separator)
        .unwrap_or(bytes.len())
}
