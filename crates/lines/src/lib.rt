// The lines of an input, however it is cut into chunks, and where bytes are cut. What a line says is another crate's, `grammar`.
// Every function answers every input; specs/ says what each answers and writes.

#![tactic(auto)]

ghost use Rattle.std.specs.Prelude.{◌≤◌};

mod chunks;
mod pieces;

pub use chunks::gather;
pub use pieces::piece_end;

// What was taken of a chunk: the place to go on from, how many bytes of the line are kept, and whether the line ended.
// Kept: the place and the length are told whether the line ended or not, so the flag and they are no Option.
#[derive(Clone, Copy)]
pub struct Gathered {
    pub at: usize,
    pub len: usize,
    pub ended: bool,
}

// The line at hand, of which no more than its first 81 bytes are held: one more than a line may have.
#[derive(Drop)]
pub struct Held {
    pub bytes: [u8; 81],
    pub len: usize,
    pub ghost in_bounds: { len ≤ 81 },
}
