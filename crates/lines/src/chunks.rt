// Lines out of chunks of an input, however it is cut into chunks.
ghost use Rattle.std.specs.Prelude.{◌≡◌, length, drop};
ghost use Rattle.std.proofs.lemmas.List.Edits.{sets};
ghost use Rattle.lines.specs.Gather.{gathered, line_here};

use crate::Gathered;
use crate::pieces::piece_end;
use texts::put;

// Kept: its clauses, `gathered` and `sets`, are of every buffer and every length, so it takes no `Held`.
// Takes the bytes of a chunk from a place on, up to the next line feed, behind the len bytes of the line that are held already.
pub fn gather(chunk: &[u8], from: usize, held: &mut [u8], len: usize) -> Gathered
    ensures value { result ≡ gathered (drop from chunk.now) from (length held.old) len }
    ensures held_after { held.new ≡ sets held.old len (line_here (drop from chunk.now)) }
{
    if chunk.len() <= from {
        return Gathered {
            at: from,
            len,
            ended: false,
        };
    }
    let rest = &chunk[from..];
    let n = piece_end(rest, b'\n');
    let kept = put(&rest[..n], held, len);
    if n < rest.len() {
        return Gathered {
            at: from + n + 1,
            len: kept,
            ended: true,
        };
    }
    Gathered {
        at: from + n,
        len: kept,
        ended: false,
    }
}
