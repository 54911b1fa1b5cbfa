// The rules of blocks, and their theory. There is no function here: definitions stand in specs/, theorems in proofs/. The type is that of
// a look-up that the definitions and the code share.

#![tactic(auto)]

// Where a frame is in the list of blocks: in the block at a place, or in none, and the place where its record would stand.
// Kept: no Result<usize, usize>, since neither case is an error: a release wants a block there, and adding wants none.
#[derive(Clone, Copy, Debug, PartialEq, Eq)]
pub enum Place {
    Inside(usize),
    Gap(usize),
}
