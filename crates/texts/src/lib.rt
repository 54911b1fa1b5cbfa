// The text that the programs print: bytes and numbers put into a buffer, and the buffer written where the next piece might have no room.
// specs/ says what each function writes.

#![tactic(auto)]

mod text;
mod waiting;

pub use text::put;
pub use waiting::room;

// A buffer, and the place in it after what waits to be written.
// Kept: `Ready` is asked where it is needed and is no invariant, since `put` answers every buffer and every place.
#[derive(Drop)]
pub struct Output<'a> {
    pub bytes: &'a mut [u8],
    pub at: usize,
}
